// The cells that wait, in the order in which they arrived.
mod calls;
mod changes;

ghost use Rattle.std.specs.Prelude.{◌≡◌, ℕ, ◌<◌, true, slice_index};
ghost use Rattle.queues.specs.Entries.{at_port, proper};

use crate::entry::Entry;
use arrayvec::ArrayVec;

// The entries of the cells that wait; `counts` says how many of them are at each port, in memory of its own, since
// nothing is allocated while a run goes on. No cell stands twice, so 256 places are enough.
#[derive(Drop)]
pub struct Line {
    entries: ArrayVec<Entry, 256>,
    counts: [usize; 32],
    ghost each_proper: { proper entries.items ≡ true },
    ghost counted: { (p : ℕ) → p < 32 → slice_index counts p ≡ at_port entries.items p },
}
