// The interface of a queue discipline.
ghost use Rattle.std.specs.Prelude.{◌≡◌, ℕ, ℤ, None, nat_lt};
ghost use Rattle.refusal.specs.Tests.{when};
ghost use Rattle.refusal.specs.declared.Refusal.TheVariants.{OutOfRange};
ghost use Rattle.discipline.specs.Meaning.{Waiting, Limits, Lawful, Same, with_cell, without_cell, count_at, stay_port};
ghost use Rattle.discipline.specs.Calls.{arrive_test, pick_test, withdraw_test, Answers, told};

use refusal::Refusal;

pub trait Discipline {
    // The cells that wait, each with the port, slot and due slot that `arrive` was handed.
    ghost waiting: { Self → Waiting };

    // The cell that a pick at a port in a slot would answer.
    ghost choice: { Self → ℕ → ℕ → ℕ };

    // What every value keeps that was made by its rules.
    ghost sound: { Self → Type 0 };

    // What an accepted call leaves, told as far as this discipline knows it.
    ghost arrives: { Self → ℕ → ℕ → ℕ → ℕ → ℤ → Self → Type 0 };

    ghost picks: { Self → ℕ → ℕ → ℕ → Self → Type 0 };

    ghost withdraws: { Self → ℕ → ℕ → Self → Type 0 };

    // A cell comes to wait at a port. Five numbers and no struct, since the interface is fixed so (docs/RULES.md).
    fn arrive(
        &mut self,
        port: usize,
        cell: usize,
        flow: u8,
        slot: u32,
        due: i64,
    ) -> Result<(), Refusal>
        ensures { sound self.old → Answers (arrive_test (waiting self.old) port cell flow) self.old result self.new (λ _. arrives self.old port cell flow slot due self.new) };

    // Answers the choice, and removes it.
    fn pick(&mut self, port: usize, slot: u32) -> Result<usize, Refusal>
        ensures { sound self.old → Answers (pick_test (waiting self.old) port) self.old result self.new (λ c. picks self.old port slot c self.new) };

    // Removes a cell that waits at a port.
    fn withdraw(&mut self, port: usize, cell: usize) -> Result<(), Refusal>
        ensures { sound self.old → Answers (withdraw_test (waiting self.old) port cell) self.old result self.new (λ _. withdraws self.old port cell self.new) };

    // How many cells wait at a port.
    fn count(&self, port: usize) -> Result<usize, Refusal>
        ensures { sound self.now → result ≡ told (when (nat_lt 31 port) OutOfRange) (count_at (waiting self.now) port) };

    // The port where a cell waits, or none.
    fn where_is(&self, cell: usize) -> Result<Option<usize>, Refusal>
        ensures { sound self.now → result ≡ told (when (nat_lt 255 cell) OutOfRange) (stay_port (waiting self.now cell)) };

    ghost limits: { (d : Self) → sound d → Limits (waiting d) };

    ghost chosen: { (d : Self) → sound d → (p t : ℕ) → Lawful (waiting d) p (choice d p t) };

    ghost arrived: { (d : Self) (p c f t : ℕ) (u : ℤ) (e : Self) → sound d → arrive_test (waiting d) p c f ≡ None → arrives d p c f t u e → sound e × Same (waiting e) (with_cell (waiting d) c (record { port = p; slot = t; due = u })) };

    ghost picked: { (d : Self) (p t c : ℕ) (e : Self) → sound d → pick_test (waiting d) p ≡ None → picks d p t c e → sound e × (c ≡ choice d p t) × Same (waiting e) (without_cell (waiting d) c) };

    ghost withdrawn: { (d : Self) (p c : ℕ) (e : Self) → sound d → withdraw_test (waiting d) p c ≡ None → withdraws d p c e → sound e × Same (waiting e) (without_cell (waiting d) c) };
}
