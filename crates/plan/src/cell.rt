// A cell as a plan holds it: when it enters, its flow, and the ports on its way.
mod parts;

ghost use Rattle.std.specs.Prelude.{◌≤◌};

// The ports that a cell crosses, in their order: at most 8, so a route needs no memory of its own.
// An array with its length, since a cell is copied, and an `ArrayVec` cannot be.
#[derive(Clone, Copy)]
pub struct Route {
    ports: [u8; 8],
    len: usize,
    ghost few: { len ≤ 8 },
}

#[derive(Clone, Copy)]
pub struct Cell {
    entry: u16,
    flow: u8,
    route: Route,
}
