// The content of a schedule file that a run tells: an owned value of fixed size, so that a run writes its file without
// memory of its own. docs/FILES.md has the format.
#![tactic(auto)]

mod row;
mod run;
mod sheet;

pub use run::Run;
pub use sheet::Sheet;

#[cfg(test)]
mod tests {
    use super::*;
    use layout::{Pile, file_length, write};
    use plan::Plan;
    use refusal::Refusal;
    use std::alloc::Global;
    use std::test::Fail;

    // Two ports, and two cells: one crosses both ports, the other the second alone.
    fn crossing(heap: Global) -> Result<Plan, Refusal> {
        let mut plan = Plan::new(heap);
        plan.add_port(3)?;
        plan.add_port(5)?;
        plan.add_cell(10, 1, &[0, 1])?;
        plan.add_cell(11, 2, &[1])?;
        Ok(plan)
    }

    // The number by which a sheet is refused, or none where it is made.
    // Other tests have this line too: a crate for it would be longer.
    fn refused(plan: &Plan, slacks: &[i32], slots: &[u32]) -> Option<u8> {
        Sheet::new(Run::Replay, Pile::Fifo, plan, slacks, slots)
            .err()
            .map(|refusal| refusal.number())
    }

    #[test]
    fn a_sheet_is_written(rt: HostRuntime) -> Result<(), Fail> {
        let plan = crossing(rt.alloc())?;
        let sheet = Sheet::new(Run::Replay, Pile::Lifo, &plan, &[-1, 7], &[20, 30, 40])?;
        assert!(rt; file_length(&sheet) == 56);
        let mut out = [0; 60];
        assert!(rt; write(&sheet, &mut out)? == 56);
        assert!(rt; out[0..8] == [3, 1, 0, 2, 0, 2, 0, 3]);
        assert!(rt; out[12..22] == [0, 10, 1, 0, 0, 1, 255, 255, 255, 255]);
        assert!(rt; out[40..48] == [0, 0, 1, 0, 0, 0, 0, 30]);
        assert!(rt; out[48..56] == [0, 0, 1, 0, 0, 0, 0, 40]);
        Ok(())
    }

    #[test]
    fn short_memory_is_refused(rt: HostRuntime) -> Result<(), Fail> {
        let plan = crossing(rt.alloc())?;
        assert!(rt; refused(&plan, &[0, 0], &[1, 2]) == Some(21));
        assert!(rt; refused(&plan, &[0], &[1, 2, 3]) == Some(21));
        assert!(rt; refused(&plan, &[0, 0], &[1, 2, 3]).is_none());
        assert!(rt; refused(&Plan::new(rt.alloc()), &[], &[]) == Some(12));
        Ok(())
    }
}
