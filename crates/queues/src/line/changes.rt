// How a line is made, and how an entry is put into it and taken out of it.
ghost use Rattle.std.specs.Prelude.{◌≡◌, ◌<◌, ◌≤◌, [], ◌∷◌, ◌++◌, length, None, slice_index_or};
ghost use Rattle.queues.specs.Entries.{waiting_in, without, no_entry};
ghost use Rattle.queues.specs.Lines.{queue};

use crate::entry::Entry;
use crate::line::Line;
use arrayvec::ArrayVec;

impl Line {
    // A line in which no cell waits.
    #[tactic(auto, using(crate::proofs::Kept::none_proper, crate::proofs::Kept::none_counted))]
    pub(crate) fn new() -> Line
        ensures { queue result ≡ [] }
    {
        Line {
            entries: ArrayVec::new(),
            counts: [0; 32],
        }
    }

    // Puts an entry at the end. There is room: the caller has tested that its cell does not wait, and at most 256 do.
    pub(super) fn append(&mut self, e: Entry)
        requires cell { e.cell ≤ 255 }
        requires port { e.port ≤ 31 }
        requires new { waiting_in (queue self.old) e.cell ≡ None }
        ensures { queue self.new ≡ queue self.old ++ e ∷ [] }
    {
        self.entries.push(e);
        self.counts[usize::from(e.port)] += 1;
    }

    // Takes out the entry at a place, and answers its cell.
    pub(crate) fn take_at(&mut self, at: usize) -> usize
        requires { at < length (queue self.old) }
        ensures cell { result ≡ (slice_index_or (queue self.old) at no_entry).cell }
        ensures left { queue self.new ≡ without (queue self.old) result }
    {
        let e = self.entries[at];
        self.entries.remove(at);
        self.counts[usize::from(e.port)] -= 1;
        usize::from(e.cell)
    }
}
