// Where a least-slack queue keeps its due cells: an ordered store of a fixed room.
ghost use Rattle.std.specs.Prelude.{◌≡◌, ℕ, List, length, MatchResult, nat_le};
ghost use Rattle.refusal.specs.Tests.{tested, when};
ghost use Rattle.refusal.specs.declared.Refusal.TheVariants.{NoPlace};
ghost use Rattle.table.specs.Elements.{elements};
ghost use Rattle.table.specs.Kinds.{due_upto};
ghost use Rattle.table.specs.Order.{put_in, first_from, taken_from};
ghost use Rattle.table.specs.declared.due.DueCell.{DueCell};

use refusal::Refusal;
use table::{DueCell, Table};

// The due cells by port, due slot and number.
pub trait Store {
    ghost cells: { Self → List DueCell };

    ghost room: { Self → ℕ };

    // Puts a due cell behind those that are not after it; refused only where no place is free.
    fn put(&mut self, x: DueCell) -> Result<(), Refusal>
        ensures value { result ≡ tested (when (nat_le (room self.old) (length (cells self.old))) NoPlace) }
        ensures done { MatchResult result (λ _. cells self.new ≡ put_in due_upto x (cells self.old)) (λ _. cells self.new ≡ cells self.old) }
        ensures long { room self.new ≡ room self.old };

    // Tells the first due cell that is not before the mark, and takes it out.
    fn take_first(&mut self, mark: &DueCell) -> Option<DueCell>
        ensures value { result ≡ first_from due_upto mark.now (cells self.old) }
        ensures done { cells self.new ≡ taken_from due_upto mark.now (cells self.old) }
        ensures long { room self.new ≡ room self.old };
}

// The ordered table over lent memory.
impl<'a> Store for Table<'a, DueCell> {
    ghost cells = { λ t. elements t };

    ghost room = { λ t. length t.places.now };

    fn put(&mut self, x: DueCell) -> Result<(), Refusal> {
        Table::put(self, x)
    }

    fn take_first(&mut self, mark: &DueCell) -> Option<DueCell> {
        Table::take_first(self, mark)
    }
}
