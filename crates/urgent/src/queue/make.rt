// How a least-slack queue is made.
ghost use Rattle.std.specs.Prelude.{◌≡◌, ◌≤◌, length, nat_lt};
ghost use Rattle.refusal.specs.Tests.{tested, when};
ghost use Rattle.refusal.specs.declared.Refusal.TheVariants.{NoPlace};
ghost use Rattle.discipline.specs.Meaning.{Empty};
ghost use Rattle.table.specs.Elements.{elements};
ghost use Rattle.urgent.specs.Queue.{waiting_in, SoundQueue};

use crate::queue::LeastSlack;
use refusal::Refusal;
use table::{DueCell, Table};

impl<'a> LeastSlack<Table<'a, DueCell>> {
    // Whether a queue can be made over this memory: it must have a place for every cell that can wait.
    pub fn test(places: &[DueCell]) -> Result<(), Refusal>
        ensures { result ≡ tested (when (nat_lt (length places.now) 256) NoPlace) }
    {
        if places.len() < 256 {
            return Err(Refusal::NoPlace);
        }
        Ok(())
    }

    // A queue without cells. Over less memory than the test asks for it is safe, and its answers are open.
    pub fn new(places: &'a mut [DueCell]) -> LeastSlack<Table<'a, DueCell>>
        ensures sound { 256 ≤ length places.old → SoundQueue (λ t. elements t) (λ t. length t.places.now) result }
        ensures empty { Empty (waiting_in result) }
        ensures same { result.queue.places.ghost_name ≡ places.entry.ghost_name }
    {
        LeastSlack {
            queue: Table::new(places),
            stays: [None; 256],
            counts: [0; 32],
        }
    }
}
