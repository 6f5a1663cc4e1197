// The calls of a least-slack queue.
ghost use Rattle.std.specs.Prelude.{◌≡◌, ◌<◌, Some, None};
ghost use Rattle.std.proofs.Common.{ap, ◌∙◌, arith, rules};
ghost use Rattle.urgent.specs.Queue.{waiting_in, choice_of, SoundQueue, Becomes};
ghost use Rattle.urgent.specs.Sound;
ghost use Rattle.urgent.specs.Sound.{most_urgent_lem, next_told, in_range, same_without};
ghost use Rattle.urgent.specs.Slack.{waiting_by};
ghost use Rattle.urgent.specs.Picks.{some_waits};

use crate::queue::LeastSlack;
use crate::store::Store;
use discipline::{Discipline, Stay, Urgent, test_arrival, test_cell, test_place, test_port};
use refusal::Refusal;
use table::DueCell;

impl<T: Store> Discipline for LeastSlack<T> {
    ghost waiting = { λ q. waiting_in q };

    ghost choice = { λ q p t. choice_of T.Store.cells q p };

    ghost sound = { λ q. SoundQueue T.Store.cells T.Store.room q };

    ghost arrives = { λ q p c f t u r. Becomes T.Store.cells T.Store.room q c (Some (record { port = p; slot = t; due = u })) r };

    ghost picks = { λ q p t c r. (c ≡ choice_of T.Store.cells q p) × Becomes T.Store.cells T.Store.room q c None r };

    ghost withdraws = { λ q p c r. Becomes T.Store.cells T.Store.room q c None r };

    ghost limits = { λ d ok. Sound.limits _ _ _ _ ok };

    ghost chosen = { λ d ok p t c h. (most_urgent_lem _ _ _ _ ok p c h).0 };

    ghost arrived = { Prim.search rules };

    ghost picked = { λ d p t c e ok test h.
        let n = next_told _ _ _ _ ok p (some_waits (waiting_by d.stays) p test) in
        let l : c < 256 = (let b = in_range _ _ _ _ ok _ _ n.2 in let q = h.0 in omega arith) in
        (h.1.0, h.0, λ k. ap (λ st. waiting_by st k) h.1.1 ∙ same_without _ _ _ _ ok c l k) };

    ghost withdrawn = { Prim.search rules };

    fn arrive(
        &mut self,
        port: usize,
        cell: usize,
        flow: u8,
        slot: u32,
        due: i64,
    ) -> Result<(), Refusal> {
        test_arrival(port, cell, flow)?;
        if self.stays[cell].is_some() {
            return Err(Refusal::AlreadyWaits);
        }
        self.add(cell, Stay { port, slot, due })
    }

    fn pick(&mut self, port: usize, _slot: u32) -> Result<usize, Refusal> {
        self.take(port)
    }

    fn withdraw(&mut self, port: usize, cell: usize) -> Result<(), Refusal> {
        test_place(port, cell)?;
        let Some(stay) = self.stay(cell) else {
            return Err(Refusal::NotWaiting);
        };
        if stay.port != port {
            return Err(Refusal::NotWaiting);
        }
        let _ = self.queue.take_first(&DueCell {
            port,
            due: stay.due,
            cell,
        });
        self.forget(port, cell);
        Ok(())
    }

    fn count(&self, port: usize) -> Result<usize, Refusal> {
        test_port(port)?;
        Ok(self.counts[port])
    }

    fn where_is(&self, cell: usize) -> Result<Option<usize>, Refusal> {
        test_cell(cell)?;
        Ok(self.stays[cell].map(|stay| stay.port))
    }
}

impl<T: Store> Urgent for LeastSlack<T> {
    ghost urgent = { λ d ok p t. most_urgent_lem _ _ _ _ ok p };

    fn due(&self, cell: usize) -> Result<Option<i64>, Refusal> {
        test_cell(cell)?;
        Ok(self.stays[cell].map(|stay| stay.due))
    }

    fn most_urgent(&mut self, port: usize) -> Result<usize, Refusal> {
        self.take(port)
    }
}
