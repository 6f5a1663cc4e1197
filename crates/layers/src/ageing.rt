// Ageing: among the cells at a port that have waited an age or more the one that came first is chosen; where there is none,
// the discipline below chooses.
ghost use Rattle.std.specs.Prelude.{◌≡◌, ◌<◌, ◌||◌, ◌==◌, nat_lt, slice_index, slice_set};
ghost use Rattle.discipline.specs.Meaning.{Empty};
ghost use Rattle.layers.specs.Ages.{old, AgedPick, earlier_of, oldest_below, aged_choice, Noted, Held};
ghost use Rattle.layers.specs.Making.{Tested};
ghost use Rattle.layers.specs.Scanning.{lawful_aged};
ghost use Rattle.layers.specs.AgedLaws.{arrived_aged, picked_aged, withdrawn_aged};

use crate::asks::waits_at;
use discipline::{Discipline, holds_none, test_cell};
use refusal::Refusal;

// The slots are by cell, and of use where the cell waits: an array, since nothing is allocated while a run goes on. No
// ghost field calls a layer sound, since one over a discipline that holds cells is a value as well, with open answers.
#[derive(Drop)]
pub struct Ageing<D> {
    age: u32,
    slots: [u32; 256],
    below: D,
}

impl<D: Discipline> Ageing<D> {
    // Whether ageing can be put on this: an age of 1 to 65,535, and a discipline that holds no cell.
    pub fn test(age: u32, below: &D) -> Result<(), Refusal>
        ensures { D.Discipline.sound below.now → Tested (age == 0 || nat_lt 65535 age) (Empty (D.Discipline.waiting below.now)) result }
    {
        if age == 0 || age > 65535 {
            return Err(Refusal::BadSetting);
        }
        if holds_none(below) {
            Ok(())
        } else {
            Err(Refusal::HoldsCells)
        }
    }

    // Puts ageing on a discipline.
    pub fn new(age: u32, below: D) -> Ageing<D>
        ensures fields { (result.age ≡ age) × (result.below ≡ below) }
        ensures empty { D.Discipline.sound below → Empty (D.Discipline.waiting below) → (D.Discipline.sound result.below × Noted result.slots (D.Discipline.waiting result.below)) × Empty (D.Discipline.waiting result.below) }
    {
        Ageing {
            age,
            slots: [0; 256],
            below,
        }
    }

    // Whether a cell waits at a port, and has for the age or more.
    fn is_old(&self, port: usize, cell: usize, slot: u32) -> bool
        requires { cell < 256 }
        ensures { D.Discipline.sound self.now.below → Noted self.now.slots (D.Discipline.waiting self.now.below) → result ≡ old (D.Discipline.waiting self.now.below) self.now.age port slot cell }
    {
        let waited = slot.saturating_sub(self.slots[cell]);
        waits_at(&self.below, port, cell) && waited >= self.age
    }

    // The earlier of a cell that is held and one of a higher number.
    fn earlier(&self, held: Option<usize>, cell: usize) -> Option<usize>
        requires { (Held held) × (cell < 256) }
        ensures held { Held result }
        ensures is { result ≡ earlier_of (λ c. slice_index self.now.slots c) held cell }
    {
        match held {
            Some(best) if self.slots[best] <= self.slots[cell] => held,
            _ => Some(cell),
        }
    }

    // The oldest of the cells at a port that have waited the age or more.
    fn oldest(&self, port: usize, slot: u32) -> Option<usize>
        ensures { D.Discipline.sound self.now.below → Noted self.now.slots (D.Discipline.waiting self.now.below) → result ≡ oldest_below (D.Discipline.waiting self.now.below) self.now.age port slot 256 }
    {
        // A loop: over `filter` and `min_by_key` no proof was found, since `is_old` tells only of sound disciplines.
        let mut best = None;
        for cell in 0..256 {
            if self.is_old(port, cell, slot) {
                best = self.earlier(best, cell);
            }
        }
        best
    }
}

impl<D: Discipline> Discipline for Ageing<D> {
    ghost waiting = { λ d. D.Discipline.waiting d.below };

    ghost choice = { λ d p t. aged_choice (oldest_below (D.Discipline.waiting d.below) d.age p t 256) (D.Discipline.choice d.below p t) };

    ghost sound = { λ d. D.Discipline.sound d.below × Noted d.slots (D.Discipline.waiting d.below) };

    ghost arrives = { λ d p c f t u e. (e.age ≡ d.age) × (e.slots ≡ slice_set d.slots c t) × D.Discipline.arrives d.below p c f t u e.below };

    ghost picks = { λ d p t c e. (e.age ≡ d.age) × (e.slots ≡ d.slots) × AgedPick (D.Discipline.waiting d.below) d.age p t c (D.Discipline.withdraws d.below p c e.below) (D.Discipline.picks d.below p t c e.below) };

    ghost withdraws = { λ d p c e. (e.age ≡ d.age) × (e.slots ≡ d.slots) × D.Discipline.withdraws d.below p c e.below };

    ghost limits = { λ d s. D.Discipline.limits d.below s.0 };

    ghost chosen = { λ d s p t. lawful_aged (D.Discipline.waiting d.below) d.age p t (D.Discipline.limits d.below s.0) (D.Discipline.choice d.below p t) (D.Discipline.chosen d.below s.0 p t) };

    ghost arrived = { λ d p c f t u e s h x. arrived_aged (D.Discipline.waiting d.below) (D.Discipline.waiting e.below) d.slots e.slots (D.Discipline.sound e.below) p c f (record { port = p; slot = t; due = u }) s.1 h x.1 (D.Discipline.arrived d.below p c f t u e.below s.0 h x.2) };

    ghost picked = { λ d p t c e s h x. picked_aged (D.Discipline.waiting d.below) (D.Discipline.waiting e.below) d.slots e.slots (D.Discipline.sound e.below) d.age p t c (D.Discipline.choice d.below p t) (D.Discipline.withdraws d.below p c e.below) (D.Discipline.picks d.below p t c e.below) s.1 (D.Discipline.limits d.below s.0) h x.1 x.2 (D.Discipline.withdrawn d.below p c e.below s.0) (D.Discipline.picked d.below p t c e.below s.0 h) };

    ghost withdrawn = { λ d p c e s h x. withdrawn_aged (D.Discipline.waiting d.below) (D.Discipline.waiting e.below) d.slots e.slots (D.Discipline.sound e.below) c s.1 x.1 (D.Discipline.withdrawn d.below p c e.below s.0 h x.2) };

    fn arrive(
        &mut self,
        port: usize,
        cell: usize,
        flow: u8,
        slot: u32,
        due: i64,
    ) -> Result<(), Refusal> {
        test_cell(cell)?;
        self.below.arrive(port, cell, flow, slot, due)?;
        self.slots[cell] = slot;
        Ok(())
    }

    fn pick(&mut self, port: usize, slot: u32) -> Result<usize, Refusal> {
        if self.below.count(port)? == 0 {
            return Err(Refusal::NoneWaits);
        }
        let Some(oldest) = self.oldest(port, slot) else {
            return self.below.pick(port, slot);
        };
        self.below.withdraw(port, oldest)?;
        Ok(oldest)
    }

    fn withdraw(&mut self, port: usize, cell: usize) -> Result<(), Refusal> {
        self.below.withdraw(port, cell)
    }

    fn count(&self, port: usize) -> Result<usize, Refusal> {
        self.below.count(port)
    }

    fn where_is(&self, cell: usize) -> Result<Option<usize>, Refusal> {
        self.below.where_is(cell)
    }
}
