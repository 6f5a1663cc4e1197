// A line at one end of which cells are taken: the first out is the first in, or the last in.
ghost use Rattle.std.specs.Prelude.{◌≡◌, [], ◌∷◌, ◌++◌};
ghost use Rattle.std.proofs.Common.{ap, ◌∙◌};
ghost use Rattle.discipline.specs.Meaning.{Empty};
ghost use Rattle.queues.specs.Entries.{waiting_in, without, entry_of};
ghost use Rattle.queues.specs.Lines.{queue};
ghost use Rattle.queues.specs.Queued.{limits_in, same_with, same_without};
ghost use Rattle.queues.specs.Passed.{arrives_new};

use crate::ends::{End, First, Last};
use crate::line::Line;
use discipline::{Discipline, Stay, test_port};
use refusal::Refusal;
use std::marker::PhantomData;

// The choice at a port is the cell there that stands at the end E.
#[derive(Drop)]
pub struct OneEnded<E> {
    line: Line,
    end: PhantomData<E>,
}

// First in, first out: the choice at a port is the cell that arrived there first.
pub type Fifo = OneEnded<First>;

// Last in, first out: the choice at a port is the cell that arrived there last.
pub type Lifo = OneEnded<Last>;

impl<E: End> OneEnded<E> {
    // No cell waits.
    pub fn new() -> OneEnded<E>
        ensures line { queue result.line ≡ [] }
        ensures none { Empty (waiting_in (queue result.line)) }
    {
        OneEnded {
            line: Line::new(),
            end: PhantomData,
        }
    }
}

impl<E: End> Discipline for OneEnded<E> {
    ghost waiting = { λ f. waiting_in (queue f.line) };

    ghost choice = { λ f p t. E.End.choice (queue f.line) p };

    ghost sound = { λ _. Unit {0} };

    ghost arrives = { λ f p c _ t u g. queue g.line ≡ queue f.line ++ entry_of c p t u ∷ [] };

    ghost picks = { λ f p t c g. (c ≡ E.End.choice (queue f.line) p) × (queue g.line ≡ without (queue f.line) c) };

    ghost withdraws = { λ f p c g. queue g.line ≡ without (queue f.line) c };

    ghost limits = { λ d s. limits_in (queue d.line) d.line.each_proper };

    ghost chosen = { λ d s p t. E.End.lawful (queue d.line) p d.line.each_proper };

    ghost arrived = { λ d p c f t u e s test is. (tt, λ k. ap (λ q. waiting_in q k) is ∙ same_with (queue d.line) (entry_of c p t u) (arrives_new (waiting_in (queue d.line)) p c f test) k) };

    ghost picked = { λ d p t c e s test is. (tt, is.0, λ k. ap (λ q. waiting_in q k) is.1 ∙ same_without (queue d.line) c k) };

    ghost withdrawn = { λ d p c e s test is. (tt, λ k. ap (λ q. waiting_in q k) is ∙ same_without (queue d.line) c k) };

    fn arrive(
        &mut self,
        port: usize,
        cell: usize,
        flow: u8,
        slot: u32,
        due: i64,
    ) -> Result<(), Refusal> {
        self.line.arrive(cell, flow, Stay { port, slot, due })
    }

    fn pick(&mut self, port: usize, _slot: u32) -> Result<usize, Refusal> {
        test_port(port)?;
        // by the count, so that no entry is looked at where none waits
        if self.line.count(port) == Ok(0) {
            return Err(Refusal::NoneWaits);
        }
        let Some(at) = E::place(self.line.waiting(), port) else {
            return Err(Refusal::NoneWaits);
        };
        Ok(self.line.take_at(at))
    }

    fn withdraw(&mut self, port: usize, cell: usize) -> Result<(), Refusal> {
        self.line.withdraw(port, cell)
    }

    fn count(&self, port: usize) -> Result<usize, Refusal> {
        self.line.count(port)
    }

    fn where_is(&self, cell: usize) -> Result<Option<usize>, Refusal> {
        self.line.where_is(cell)
    }
}
