// How a cell is made, and its parts.
ghost use Rattle.std.specs.Prelude.{◌≡◌, ◌≤◌, length};
ghost use Rattle.plan.specs.Cells.{ports_of, planned};

use crate::cell::{Cell, Route};

impl Route {
    // The ports in their order.
    pub fn ports(&self) -> &[u8]
        ensures { result.now ≡ ports_of self.now }
    {
        &self.ports[0..self.len]
    }
}

impl Cell {
    // The caller has tested that the route has at most 8 ports.
    pub(crate) fn new(entry: u16, flow: u8, route: &[u8]) -> Cell
        requires { length route.now ≤ 8 }
        ensures { planned result ≡ record { entry = entry; flow = flow; route = route.now } }
    {
        let mut ports = [0; 8];
        ports[0..route.len()].copy_from_slice(route);
        Cell {
            entry,
            flow,
            route: Route {
                ports,
                len: route.len(),
            },
        }
    }

    // The slot in which the cell enters.
    pub fn entry(&self) -> u16
        ensures { result ≡ self.now.entry }
    {
        self.entry
    }

    pub fn flow(&self) -> u8
        ensures { result ≡ self.now.flow }
    {
        self.flow
    }

    pub fn route(&self) -> Route
        ensures { result ≡ self.now.route }
    {
        self.route
    }
}
