// The two ends of a line at which cells are taken.
ghost use Rattle.std.specs.Prelude.{◌≡◌, ℕ, true, List, MatchOption};
ghost use Rattle.discipline.specs.Meaning.{Lawful};
ghost use Rattle.queues.specs.Entries.{waiting_in, at_port, first_at, last_at, proper, StandsAt};
ghost use Rattle.queues.specs.Chosen.{first_lawful, last_lawful};
ghost use Rattle.queues.specs.declared.entry.Entry.{Entry};

use crate::entry::Entry;
use crate::seek;

// Which of the cells that wait at a port is taken.
pub trait End {
    ghost choice: { List Entry → ℕ → ℕ };

    // The place of the choice, or none where no cell waits at the port.
    fn place(entries: &[Entry], port: usize) -> Option<usize>
        ensures { MatchOption result (at_port entries.now port ≡ 0) (StandsAt entries.now port (choice entries.now port)) };

    ghost lawful: { (q : List Entry) (p : ℕ) → proper q ≡ true → Lawful (waiting_in q) p (choice q p) };
}

// The cell that arrived first.
#[derive(Drop)]
pub struct First;

// The cell that arrived last.
#[derive(Drop)]
pub struct Last;

impl End for First {
    ghost choice = { first_at };

    ghost lawful = { first_lawful };

    #[tactic(auto, using(crate::proofs::Seeking::first_found))]
    fn place(entries: &[Entry], port: usize) -> Option<usize> {
        seek::first_at(entries, port)
    }
}

impl End for Last {
    ghost choice = { last_at };

    ghost lawful = { last_lawful };

    #[tactic(auto, using(crate::proofs::Seeking::last_found))]
    fn place(entries: &[Entry], port: usize) -> Option<usize> {
        seek::last_at(entries, port)
    }
}
