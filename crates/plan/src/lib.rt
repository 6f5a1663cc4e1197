// A plan under construction: ports with their delays, and cells with their routes. docs/RULES.md has the rules.
#![tactic(auto)]

mod cell;
mod plan;
mod route;

pub use cell::{Cell, Route};
pub use plan::Plan;

#[cfg(test)]
mod tests {
    use super::*;
    use refusal::Refusal;
    use std::alloc::Global;
    use std::test::Fail;

    // A plan of ports with these delays.
    fn ported(heap: Global, delays: &[u16]) -> Result<Plan, Refusal> {
        let mut plan = Plan::new(heap);
        for delay in delays {
            plan.add_port(*delay)?;
        }
        Ok(plan)
    }

    // The number and the place of a refusal, if the call was refused. Other tests have
    // this line too: a crate for it would be longer.
    fn refused(answer: Result<usize, Refusal>) -> Option<(u8, usize)> {
        answer
            .err()
            .map(|refusal| (refusal.number(), refusal.place()))
    }

    #[test]
    fn delays_end_at_255(rt: HostRuntime) -> Result<(), Fail> {
        let mut plan = Plan::new(rt.alloc());
        assert!(rt; refused(plan.add_port(256)) == Some((4, 0)));
        assert!(rt; refused(plan.add_port(0)) == Some((4, 0)));
        assert!(rt; plan.ports() == 0);
        plan.add_port(255)?;
        assert!(rt; plan.delay(0) == Some(255));
        Ok(())
    }

    #[test]
    fn routes_are_tested(rt: HostRuntime) -> Result<(), Fail> {
        let mut plan = ported(rt.alloc(), &[3; 9])?;
        plan.add_cell(40, 7, &[8, 7, 6, 5, 4, 3, 2, 1])?;
        assert!(rt; refused(plan.add_cell(0, 0, &[8, 7, 6, 5, 4, 3, 2, 1, 0])) == Some((7, 1)));
        assert!(rt; refused(plan.add_cell(0, 0, &[4, 9])) == Some((8, 1)));
        assert!(rt; refused(plan.add_cell(0, 0, &[4, 2, 4])) == Some((9, 1)));
        assert!(rt; refused(plan.add_cell(0, 8, &[4])) == Some((10, 1)));
        assert!(rt; plan.cells() == 1 && plan.hops() == 8);
        Ok(())
    }

    #[test]
    fn plans_get_full(rt: HostRuntime) -> Result<(), Fail> {
        let mut plan = ported(rt.alloc(), &[1; 32])?;
        for _ in 0..256 {
            plan.add_cell(0, 0, &[31])?;
        }
        assert!(rt; refused(plan.add_port(1)) == Some((11, 32)));
        assert!(rt; refused(plan.add_cell(0, 0, &[31])) == Some((11, 256)));
        assert!(rt; plan.ports() == 32 && plan.cells() == 256);
        Ok(())
    }

    #[test]
    fn the_last_port_takes_no_travel(rt: HostRuntime) -> Result<(), Fail> {
        let mut plan = ported(rt.alloc(), &[5, 7, 9])?;
        plan.add_cell(0, 0, &[2, 0, 1])?;
        assert!(rt; plan.least_travel(0) == Some(14));
        Ok(())
    }
}
