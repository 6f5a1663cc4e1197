// The content of a schedule file as a value.
mod open;
mod read;
mod source;

ghost use Rattle.std.specs.Prelude.{◌≡◌, ◌<◌, length, vec_len};
ghost use Rattle.std.proofs.Props.{props};
ghost use Rattle.plan.specs.Plans.{delays_of, cells_of};
ghost use Rattle.schedule.specs.Marking.{AllMarked};

use crate::marks::Marks;
use layout::{Kind, Pile};
use plan::Plan;

// At least one port and one cell, and the marks of each cell: slacks and sent slots of 32 bits, all zero in a load.
// The marks stand beside the cells of the plan and not in them, since the plan is handed out whole.
#[derive(Drop)]
pub struct Schedule {
    kind: Kind,
    pile: Pile,
    plan: Plan,
    marks: Vec<Marks>,
    ghost some_ports: { 0 < length (delays_of plan) },
    ghost some_cells: { 0 < length (cells_of plan) },
    ghost each_marked: { vec_len marks ≡ length (cells_of plan) },
    ghost marks_fit: { AllMarked kind (cells_of plan) marks.items } by { Prim.hlevel props },
}
