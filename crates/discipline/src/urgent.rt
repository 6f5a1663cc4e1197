// Disciplines that choose by due slots.
ghost use Rattle.std.specs.Prelude.{◌≡◌, ℕ, nat_lt};
ghost use Rattle.refusal.specs.Tests.{when};
ghost use Rattle.refusal.specs.declared.Refusal.TheVariants.{OutOfRange};
ghost use Rattle.discipline.specs.Meaning.{MostUrgent, stay_due};
ghost use Rattle.discipline.specs.Calls.{pick_test, Answers, told};

use crate::interface::Discipline;
use refusal::Refusal;

pub trait Urgent: Discipline {
    // The due slot of a waiting cell, or none.
    fn due(&self, cell: usize) -> Result<Option<i64>, Refusal>
        ensures { Self.Discipline.sound self.now → result ≡ told (when (nat_lt 255 cell) OutOfRange) (stay_due (Self.Discipline.waiting self.now cell)) };

    // Answers the waiting cell of least due slot, then lowest number, and removes it: at every slot the choice.
    fn most_urgent(&mut self, port: usize) -> Result<usize, Refusal>
        ensures { Self.Discipline.sound self.old → Answers (pick_test (Self.Discipline.waiting self.old) port) self.old result self.new (λ c. (t : ℕ) → Self.Discipline.picks self.old port t c self.new) };

    ghost urgent: { (d : Self) → Self.Discipline.sound d → (p t : ℕ) → MostUrgent (Self.Discipline.waiting d) p (Self.Discipline.choice d p t) };
}
