// What can be asked of a plan.
ghost use Rattle.std.specs.Prelude.{◌≡◌, ◌<◌, ◌≤◌, map, length, get_or, slice_index, slice_index_or};
ghost use Rattle.plan.specs.Cells.{planned, no_cell, Routed, travel, hops_in};
ghost use Rattle.plan.specs.Plans.{delays_of, cells_of, Asked};

use crate::cell::Cell;
use crate::plan::Plan;

// How many hops a cell has.
fn hops_of(cell: &Cell) -> usize
    ensures { result ≡ length (planned cell.now).route }
{
    cell.route().ports().len()
}

impl Plan {
    // How many ports the plan has.
    pub fn ports(&self) -> usize
        ensures { result ≡ length (delays_of self.now) }
    {
        self.delays.len()
    }

    // How many cells the plan has.
    pub fn cells(&self) -> usize
        ensures { result ≡ length (cells_of self.now) }
    {
        self.cells.len()
    }

    // The delay of each port, by its number.
    pub fn delays(&self) -> &[u8]
        ensures { result.now ≡ delays_of self.now }
    {
        self.delays.as_slice()
    }

    // Each cell, by its number.
    pub fn all_cells(&self) -> &[Cell]
        ensures { map planned result.now ≡ cells_of self.now }
    {
        self.cells.as_slice()
    }

    // The delay of a port, or none past the last port.
    pub fn delay(&self, port: usize) -> Option<u8>
        ensures { Asked (length (delays_of self.now)) port result (λ d. d ≡ slice_index (delays_of self.now) port) }
    {
        self.delays.get(port).copied()
    }

    // A cell by its number, or none past the last cell.
    pub fn cell(&self, number: usize) -> Option<Cell>
        ensures { Asked (length (cells_of self.now)) number result (λ c. planned c ≡ slice_index_or (cells_of self.now) number no_cell) }
    {
        self.cells.get(number).copied()
    }

    // How many hops all cells have together.
    pub fn hops(&self) -> usize
        ensures { result ≡ hops_in (cells_of self.now) }
    {
        self.cells.iter().map(hops_of).sum()
    }

    // The delay of a port of the plan.
    fn slots_to(&self, port: u8) -> u32
        requires { port < length (delays_of self.now) }
        ensures value { result ≡ slice_index (delays_of self.now) port }
        ensures few { result ≤ 255 }
    {
        u32::from(self.delays[usize::from(port)])
    }

    // The delays of a route's ports without the last.
    fn travel_along(&self, ports: &[u8]) -> u32
        requires { Routed (length (delays_of self.now)) ports.now }
        ensures { result ≡ travel (delays_of self.now) ports.now }
    {
        ports[..ports.len() - 1]
            .iter()
            .map(|port| self.slots_to(*port))
            .sum()
    }

    // How many slots a cell travels at least, or none past the last cell.
    pub fn least_travel(&self, cell: usize) -> Option<u32>
        ensures { Asked (length (cells_of self.now)) cell result (λ t. t ≡ travel (delays_of self.now) (get_or (cells_of self.now) cell no_cell).route) }
    {
        let route = self.cell(cell)?.route();
        Some(self.travel_along(route.ports()))
    }
}
