// How a plan is built: ports and cells are added one by one, each at the end and with the next number. What is
// refused leaves the plan as it was.
ghost use Rattle.std.specs.Prelude.{◌≡◌, [], length};
ghost use Rattle.refusal.specs.Tests.{tested};
ghost use Rattle.plan.specs.Cells.{cell_test};
ghost use Rattle.plan.specs.Plans.{delays_of, cells_of, Holds, PortAdded, CellAdded};

use crate::cell::Cell;
use crate::plan::Plan;
use crate::route::test_route;
use refusal::Refusal;
use std::alloc::Global;

const MOST_PORTS: usize = 32;

const MOST_CELLS: usize = 256;

const LAST_FLOW: u8 = 7;

impl Plan {
    // A plan without ports and cells.
    pub fn new(heap: Global) -> Plan
        ensures { Holds result [] [] }
    {
        let delays = Vec::new(heap);
        let cells = Vec::new(heap);
        Plan { delays, cells }
    }

    // Adds a port, and answers its number.
    pub fn add_port(&mut self, delay: u16) -> Result<usize, Refusal>
        ensures { PortAdded self.old delay result self.new }
    {
        let port = self.ports();
        let delay = match u8::try_from(delay) {
            Ok(delay) if delay > 0 => delay,
            _ => return Err(Refusal::BadDelay(port)),
        };
        if port >= MOST_PORTS {
            return Err(Refusal::PlanFull(port));
        }
        self.delays.push(delay)?;
        Ok(port)
    }

    // Refuses one more cell with this flow and route, by the first test that fails.
    fn test_cell(&self, flow: u8, route: &[u8]) -> Result<(), Refusal>
        ensures { result ≡ tested (cell_test (length (delays_of self.now)) (length (cells_of self.now)) flow route.now) }
    {
        let cell = self.cells();
        test_route(route, self.ports(), cell)?;
        if flow > LAST_FLOW {
            return Err(Refusal::BadFlow(cell));
        }
        if cell >= MOST_CELLS {
            return Err(Refusal::PlanFull(cell));
        }
        Ok(())
    }

    // Adds a cell, and answers its number.
    pub fn add_cell(&mut self, entry: u16, flow: u8, route: &[u8]) -> Result<usize, Refusal>
        ensures { CellAdded self.old entry flow route.now result self.new }
    {
        self.test_cell(flow, route)?;
        let cell = self.cells();
        self.cells.push(Cell::new(entry, flow, route))?;
        Ok(cell)
    }
}
