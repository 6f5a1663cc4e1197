// A plan, and what every plan keeps.
mod build;
mod questions;

ghost use Rattle.std.specs.Prelude.{◌≤◌, map, vec_len};
ghost use Rattle.std.proofs.Props.{props};
ghost use Rattle.plan.specs.Cells.{planned, Delays, Cells};

use crate::cell::Cell;

// At most 32 ports, each with a delay of 1 to 255, and at most 256 cells, each with an entry slot of 16 bits, a flow
// of 0 to 7, and a route of 1 to 8 ports of the plan, none twice.
#[derive(Drop)]
pub struct Plan {
    delays: Vec<u8>,
    cells: Vec<Cell>,
    ghost few_ports: { vec_len delays ≤ 32 },
    ghost few_cells: { vec_len cells ≤ 256 },
    ghost delays_fit: { Delays delays.items },
    ghost cells_fit: { Cells (vec_len delays) (map planned cells.items) } by { Prim.hlevel props },
}
