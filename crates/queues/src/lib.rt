// First in, first out and last in, first out: two disciplines over one line of waiting cells. docs/RULES.md has the rules.
#![tactic(auto)]

mod ends;
mod entry;
mod line;
mod one_ended;
mod seek;

pub use ends::{End, First, Last};
pub use one_ended::{Fifo, Lifo, OneEnded};

#[cfg(test)]
mod tests {
    use super::*;
    use discipline::{Discipline, holds_none};
    use refusal::Refusal;
    use std::process::Abort;
    use std::test::Fail;

    // Cells 3, 5 and 4 arrive: 5 at port 2, the others at port 1.
    fn fill<D: Discipline>(d: &mut D) -> Result<(), Refusal> {
        d.arrive(1, 3, 0, 10, 20)?;
        d.arrive(2, 5, 7, 10, -4)?;
        d.arrive(1, 4, 0, 11, 15)
    }

    // The number of the refusal. Other tests have this line too: a crate for it would be longer.
    fn number<T: Drop>(answer: Result<T, Refusal>) -> Option<u8> {
        answer.err().map(|refusal| refusal.number())
    }

    // Refusals of every kind, after which all three cells still wait.
    fn refuses<D: Discipline>(rt: &impl Abort, d: &mut D) -> Result<(), Fail> {
        assert!(rt; number(d.arrive(32, 9, 0, 12, 30)) == Some(16));
        assert!(rt; number(d.arrive(1, 256, 0, 12, 30)) == Some(16));
        assert!(rt; number(d.arrive(1, 9, 8, 12, 30)) == Some(16));
        assert!(rt; number(d.arrive(2, 3, 0, 12, 30)) == Some(17));
        assert!(rt; number(d.pick(3, 12)) == Some(18));
        assert!(rt; number(d.withdraw(2, 3)) == Some(19));
        assert!(rt; d.count(1)? == 2 && d.count(2)? == 1 && d.where_is(3)? == Some(1));
        Ok(())
    }

    #[test]
    fn the_first_comes_out_first(rt: HostRuntime) -> Result<(), Fail> {
        let mut fifo = Fifo::new();
        assert!(rt; holds_none(&fifo));
        fill(&mut fifo)?;
        refuses(&rt, &mut fifo)?;
        assert!(rt; fifo.pick(1, 12)? == 3);
        assert!(rt; fifo.pick(1, 13)? == 4);
        fifo.withdraw(2, 5)?;
        assert!(rt; fifo.where_is(5)? == None && fifo.count(2)? == 0);
        Ok(())
    }

    #[test]
    fn the_last_comes_out_first(rt: HostRuntime) -> Result<(), Fail> {
        let mut lifo = Lifo::new();
        assert!(rt; holds_none(&lifo));
        fill(&mut lifo)?;
        refuses(&rt, &mut lifo)?;
        assert!(rt; lifo.pick(1, 12)? == 4);
        assert!(rt; lifo.pick(1, 13)? == 3);
        assert!(rt; lifo.pick(2, 13)? == 5);
        Ok(())
    }
}
