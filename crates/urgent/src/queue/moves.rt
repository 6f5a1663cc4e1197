// A cell comes to a least-slack queue, or leaves it.
ghost use Rattle.std.specs.Prelude.{◌≡◌, ℕ, ◌-◌, ◌<◌, Some, None, Ok, slice_index, slice_set};
ghost use Rattle.discipline.specs.Calls.{pick_test, Answers};
ghost use Rattle.urgent.specs.Queue.{waiting_in, choice_of, SoundQueue, Becomes};

use crate::queue::LeastSlack;
use crate::store::Store;
use discipline::{Stay, test_port};
use refusal::Refusal;
use table::DueCell;

impl<T: Store> LeastSlack<T> {
    // The stay of a cell, if it waits.
    pub(crate) fn stay(&self, cell: usize) -> Option<Stay>
        requires { cell < 256 }
        ensures { result ≡ waiting_in self.now cell }
    {
        self.stays[cell]
    }

    // Adds a cell that does not wait yet. Where the queue is sound there is room.
    pub(crate) fn add(&mut self, cell: usize, stay: Stay) -> Result<(), Refusal>
        requires { (cell < 256) × (stay.port < 32) }
        ensures { SoundQueue T.Store.cells T.Store.room self.old → waiting_in self.old cell ≡ None → (result ≡ Ok tt) × Becomes T.Store.cells T.Store.room self.old cell (Some stay) self.new }
    {
        let port = stay.port;
        self.queue.put(DueCell {
            port,
            due: stay.due,
            cell,
        })?;
        self.stays[cell] = Some(stay);
        self.counts[port] = self.counts[port].saturating_add(1);
        Ok(())
    }

    // Strikes a cell from the stays, and from the count of its port.
    pub(crate) fn forget(&mut self, port: usize, cell: usize)
        requires { port < 32 }
        ensures queue { self.new.queue ≡ self.old.queue }
        ensures stays { self.new.stays ≡ slice_set self.old.stays cell None }
        ensures counts { self.new.counts ≡ slice_set self.old.counts port (slice_index self.old.counts port - 1) }
    {
        self.counts[port] = self.counts[port].saturating_sub(1);
        if cell < 256 {
            self.stays[cell] = None;
        }
    }

    // Answers the most urgent cell of a port, and removes it.
    pub(crate) fn take(&mut self, port: usize) -> Result<usize, Refusal>
        ensures { SoundQueue T.Store.cells T.Store.room self.old → Answers (pick_test (waiting_in self.old) port) self.old result self.new (λ c. (t : ℕ) → (c ≡ choice_of T.Store.cells self.old port) × Becomes T.Store.cells T.Store.room self.old c None self.new) }
    {
        test_port(port)?;
        if self.counts[port] == 0 {
            return Err(Refusal::NoneWaits);
        }
        let mark = DueCell {
            port,
            due: i64::MIN,
            cell: 0,
        };
        let Some(next) = self.queue.take_first(&mark) else {
            return Err(Refusal::NoneWaits);
        };
        self.forget(port, next.cell);
        Ok(next.cell)
    }
}
