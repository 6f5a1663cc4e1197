// The tests of a route.
ghost use Rattle.std.specs.Prelude.{◌≡◌};
ghost use Rattle.refusal.specs.Tests.{tested};
ghost use Rattle.plan.specs.Cells.{names_unknown, names_twice, route_test};

use refusal::Refusal;

const MOST_HOPS: usize = 8;

// Whether the route names a port that is not below `ports`.
fn has_unknown(route: &[u8], ports: usize) -> bool
    ensures { result ≡ names_unknown ports route.now }
{
    route.iter().any(|port| usize::from(*port) >= ports)
}

// Whether the route names some port twice.
fn has_twice(route: &[u8]) -> bool
    ensures { result ≡ names_twice route.now }
{
    match route {
        [] => false,
        [port, rest @ ..] => rest.contains(port) || has_twice(rest),
    }
}

// Refuses a route for the cell with the number `cell`, in a plan of `ports` ports.
pub(crate) fn test_route(route: &[u8], ports: usize, cell: usize) -> Result<(), Refusal>
    ensures { result ≡ tested (route_test ports cell route.now) }
{
    if route.is_empty() || route.len() > MOST_HOPS {
        return Err(Refusal::BadRouteLength(cell));
    }
    if has_unknown(route, ports) {
        return Err(Refusal::UnknownPort(cell));
    }
    if has_twice(route) {
        return Err(Refusal::PortTwice(cell));
    }
    Ok(())
}
