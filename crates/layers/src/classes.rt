// Classes of flows: the cells of the flows below a number wait in a first discipline and go before all others, which wait in
// a second.
ghost use Rattle.std.specs.Prelude.{◌≡◌, ◌==◌, nat_lt};
ghost use Rattle.discipline.specs.Meaning.{count_at, waits_at, Empty};
ghost use Rattle.layers.specs.Halves.{joined, half_choice, Either, BothSound};
ghost use Rattle.layers.specs.Making.{Tested};
ghost use Rattle.layers.specs.Joining.{limits_joined, lawful_joined};
ghost use Rattle.layers.specs.JoinedLaws.{arrived_joined, picked_joined, withdrawn_joined};

use crate::asks::{waits, waits_at};
use discipline::{Discipline, holds_none, test_arrival};
use refusal::Refusal;

// The flows below `below` go to the first, the rest to the second. No ghost field calls a layer sound, since one over
// disciplines that hold cells is a value as well, with open answers.
#[derive(Drop)]
pub struct Classes<F, S> {
    below: usize,
    first: F,
    second: S,
}

impl<F: Discipline, S: Discipline> Classes<F, S> {
    // Whether classes can be made of these: a number of flows up to 8, and disciplines that hold no cell.
    pub fn test(below: usize, first: &F, second: &S) -> Result<(), Refusal>
        ensures { F.Discipline.sound first.now → S.Discipline.sound second.now → Tested (nat_lt 8 below) (Empty (F.Discipline.waiting first.now) × Empty (S.Discipline.waiting second.now)) result }
    {
        if below > 8 {
            return Err(Refusal::BadSetting);
        }
        if holds_none(first) && holds_none(second) {
            Ok(())
        } else {
            Err(Refusal::HoldsCells)
        }
    }

    // Puts two disciplines side by side.
    pub fn new(below: usize, first: F, second: S) -> Classes<F, S>
        ensures fields { (result.below ≡ below) × (result.first ≡ first) × (result.second ≡ second) }
        ensures empty { F.Discipline.sound first → S.Discipline.sound second → Empty (F.Discipline.waiting first) → Empty (S.Discipline.waiting second) → BothSound (F.Discipline.sound result.first) (S.Discipline.sound result.second) (F.Discipline.waiting result.first) (S.Discipline.waiting result.second) × Empty (joined (F.Discipline.waiting result.first) (S.Discipline.waiting result.second)) }
    {
        Classes {
            below,
            first,
            second,
        }
    }
}

impl<F: Discipline, S: Discipline> Discipline for Classes<F, S> {
    ghost waiting = { λ d. joined (F.Discipline.waiting d.first) (S.Discipline.waiting d.second) };

    ghost choice = { λ d p t. half_choice (F.Discipline.waiting d.first) p (F.Discipline.choice d.first p t) (S.Discipline.choice d.second p t) };

    ghost sound = { λ d. BothSound (F.Discipline.sound d.first) (S.Discipline.sound d.second) (F.Discipline.waiting d.first) (S.Discipline.waiting d.second) };

    ghost arrives = { λ d p c f t u e. (e.below ≡ d.below) × Either (nat_lt f d.below) (F.Discipline.arrives d.first p c f t u e.first × (e.second ≡ d.second)) (S.Discipline.arrives d.second p c f t u e.second × (e.first ≡ d.first)) };

    ghost picks = { λ d p t c e. (e.below ≡ d.below) × Either (count_at (F.Discipline.waiting d.first) p == 0) (S.Discipline.picks d.second p t c e.second × (e.first ≡ d.first)) (F.Discipline.picks d.first p t c e.first × (e.second ≡ d.second)) };

    ghost withdraws = { λ d p c e. (e.below ≡ d.below) × Either (waits_at (F.Discipline.waiting d.first) p c) (F.Discipline.withdraws d.first p c e.first × (e.second ≡ d.second)) (S.Discipline.withdraws d.second p c e.second × (e.first ≡ d.first)) };

    ghost limits = { λ d s. limits_joined (F.Discipline.waiting d.first) (S.Discipline.waiting d.second) (F.Discipline.limits d.first s.0) (S.Discipline.limits d.second s.1) };

    ghost chosen = { λ d s p t. lawful_joined (F.Discipline.waiting d.first) (S.Discipline.waiting d.second) p (F.Discipline.choice d.first p t) (S.Discipline.choice d.second p t) (F.Discipline.limits d.first s.0) (S.Discipline.limits d.second s.1) s.2 (F.Discipline.chosen d.first s.0 p t) (S.Discipline.chosen d.second s.1 p t) };

    ghost arrived = { λ d p c f t u e s h x. arrived_joined F.Discipline.waiting S.Discipline.waiting F.Discipline.sound S.Discipline.sound d.first e.first d.second e.second p c f (record { port = p; slot = t; due = u }) (nat_lt f d.below) (F.Discipline.arrives d.first p c f t u e.first) (S.Discipline.arrives d.second p c f t u e.second) s h x.1 (F.Discipline.arrived d.first p c f t u e.first s.0) (S.Discipline.arrived d.second p c f t u e.second s.1) };

    ghost picked = { λ d p t c e s h x. picked_joined F.Discipline.waiting S.Discipline.waiting F.Discipline.sound S.Discipline.sound d.first e.first d.second e.second p c (F.Discipline.choice d.first p t) (S.Discipline.choice d.second p t) (F.Discipline.picks d.first p t c e.first) (S.Discipline.picks d.second p t c e.second) s h x.1 (F.Discipline.chosen d.first s.0 p t) (S.Discipline.chosen d.second s.1 p t) (F.Discipline.picked d.first p t c e.first s.0) (S.Discipline.picked d.second p t c e.second s.1) };

    ghost withdrawn = { λ d p c e s h x. withdrawn_joined F.Discipline.waiting S.Discipline.waiting F.Discipline.sound S.Discipline.sound d.first e.first d.second e.second p c (F.Discipline.withdraws d.first p c e.first) (S.Discipline.withdraws d.second p c e.second) s h x.1 (F.Discipline.withdrawn d.first p c e.first s.0) (S.Discipline.withdrawn d.second p c e.second s.1) };

    fn arrive(
        &mut self,
        port: usize,
        cell: usize,
        flow: u8,
        slot: u32,
        due: i64,
    ) -> Result<(), Refusal> {
        test_arrival(port, cell, flow)?;
        if waits(&self.first, cell) || waits(&self.second, cell) {
            return Err(Refusal::AlreadyWaits);
        }
        if usize::from(flow) < self.below {
            self.first.arrive(port, cell, flow, slot, due)
        } else {
            self.second.arrive(port, cell, flow, slot, due)
        }
    }

    fn pick(&mut self, port: usize, slot: u32) -> Result<usize, Refusal> {
        if self.first.count(port)? > 0 {
            self.first.pick(port, slot)
        } else {
            self.second.pick(port, slot)
        }
    }

    fn withdraw(&mut self, port: usize, cell: usize) -> Result<(), Refusal> {
        if waits_at(&self.first, port, cell) {
            self.first.withdraw(port, cell)
        } else {
            self.second.withdraw(port, cell)
        }
    }

    fn count(&self, port: usize) -> Result<usize, Refusal> {
        let first = self.first.count(port)?;
        let second = self.second.count(port)?;
        Ok(first.saturating_add(second))
    }

    fn where_is(&self, cell: usize) -> Result<Option<usize>, Refusal> {
        match self.first.where_is(cell)? {
            Some(port) => Ok(Some(port)),
            None => self.second.where_is(cell),
        }
    }
}
