// The calls on a line that do not ask which cell comes first.
ghost use Rattle.std.specs.Prelude.{◌≡◌, [], ◌∷◌, ◌++◌, None, MatchOption, nat_lt};
ghost use Rattle.refusal.specs.Tests.{when};
ghost use Rattle.refusal.specs.declared.Refusal.TheVariants.{OutOfRange};
ghost use Rattle.discipline.specs.Meaning.{count_at, stay_port};
ghost use Rattle.discipline.specs.Calls.{arrive_test, withdraw_test, Answers, told};
ghost use Rattle.queues.specs.Entries.{waiting_in, without, entry_of, Stands};
ghost use Rattle.queues.specs.Lines.{queue};

use crate::entry::Entry;
use crate::line::Line;
use crate::seek;
use discipline::{Stay, test_arrival, test_cell, test_place, test_port};
use refusal::Refusal;

impl Line {
    // The entries, in the order in which their cells arrived.
    pub(crate) fn waiting(&self) -> &[Entry]
        ensures { result.now ≡ queue self.now }
    {
        &self.entries
    }

    // The place of a cell, or none.
    fn place_of(&self, cell: usize) -> Option<usize>
        ensures { MatchOption result (waiting_in (queue self.now) cell ≡ None) (Stands (queue self.now) cell) }
    {
        seek::place_of(self.waiting(), cell)
    }

    // The port of a cell, or none.
    fn port_of(&self, cell: usize) -> Option<usize>
        ensures { result ≡ stay_port (waiting_in (queue self.now) cell) }
    {
        let at = self.place_of(cell)?;
        Some(usize::from(self.entries[at].port))
    }

    // A cell comes to wait: it stands at the end.
    pub(crate) fn arrive(&mut self, cell: usize, flow: u8, stay: Stay) -> Result<(), Refusal>
        ensures { Answers (arrive_test (waiting_in (queue self.old)) stay.port cell flow) self.old result self.new (λ _. queue self.new ≡ queue self.old ++ entry_of cell stay.port stay.slot stay.due ∷ []) }
    {
        test_arrival(stay.port, cell, flow)?;
        if self.place_of(cell).is_some() {
            return Err(Refusal::AlreadyWaits);
        }
        // both numbers fit, as the test has told, so no conversion can fail here
        self.append(Entry {
            cell: cell as u16,
            port: stay.port as u16,
            slot: stay.slot,
            due: stay.due,
        });
        Ok(())
    }

    // Removes a cell that waits at a port.
    pub(crate) fn withdraw(&mut self, port: usize, cell: usize) -> Result<(), Refusal>
        ensures { Answers (withdraw_test (waiting_in (queue self.old)) port cell) self.old result self.new (λ _. queue self.new ≡ without (queue self.old) cell) }
    {
        test_place(port, cell)?;
        let Some(at) = self.place_of(cell) else {
            return Err(Refusal::NotWaiting);
        };
        if usize::from(self.entries[at].port) != port {
            return Err(Refusal::NotWaiting);
        }
        self.take_at(at);
        Ok(())
    }

    // How many cells wait at a port.
    pub(crate) fn count(&self, port: usize) -> Result<usize, Refusal>
        ensures { result ≡ told (when (nat_lt 31 port) OutOfRange) (count_at (waiting_in (queue self.now)) port) }
    {
        test_port(port)?;
        Ok(self.counts[port])
    }

    // The port where a cell waits, or none.
    pub(crate) fn where_is(&self, cell: usize) -> Result<Option<usize>, Refusal>
        ensures { result ≡ told (when (nat_lt 255 cell) OutOfRange) (stay_port (waiting_in (queue self.now) cell)) }
    {
        test_cell(cell)?;
        Ok(self.port_of(cell))
    }
}
