// A recording: a plan that is sealed, and where its run stands.
mod cells;
mod questions;
mod seal;
mod slot;

ghost use Rattle.std.specs.Prelude.{◌≡◌, ◌≤◌, length};
ghost use Rattle.arrayvec.specs.ArrayVec.{array_vec_len};
ghost use Rattle.plan.specs.Plans.{cells_of};
ghost use Rattle.run.specs.Offsets.{Offsets};

use arrayvec::ArrayVec;
use layout::Pile;
use plan::Plan;
use rules::CellRecord;

// The plan, the queue discipline that a file of it names, a record for each cell, and which ports were contested.
// `next` is the slot that is performed next, `gone` how many cells have left, and `flying` how many places of the
// flights, which are lent to each call, are in use. Marks of ports are an array, since nothing is allocated in a run.
#[derive(Drop)]
pub struct Recording {
    plan: Plan,
    pile: Pile,
    records: ArrayVec<CellRecord, 256>,
    contested: [bool; 32],
    next: u32,
    gone: usize,
    flying: usize,
    ghost counted: { array_vec_len records ≡ length (cells_of plan) },
    ghost broad: { length contested ≡ 32 },
    ghost offsets: { Offsets (cells_of plan) records.items },
    ghost bounded: { next ≤ 587521 },
}
