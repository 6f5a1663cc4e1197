// Tests of the disciplines together: towers of layers, and the least-slack queue.
#![tactic(auto)]

#[cfg(test)]
mod model;

#[cfg(test)]
mod tests {
    use crate::model::{Model, Random};
    use discipline::{Discipline, Urgent};
    use layers::{Ageing, Classes};
    use queues::{Fifo, Lifo};
    use std::test::Fail;
    use table::{DueCell, Table};
    use urgent::LeastSlack;

    // One port; cells 0 and 1 enter in slot 0, cell 2 in slot 1 and cell 3 in slot 2; one pick a slot.
    #[test]
    fn ageing_over_lifo(rt: HostRuntime) -> Result<(), Fail> {
        let lifo = Lifo::new();
        assert!(rt; Ageing::test(2, &lifo).is_ok());
        let mut aged = Ageing::new(2, lifo);
        aged.arrive(0, 0, 0, 0, 0)?;
        aged.arrive(0, 1, 0, 0, 0)?;
        assert_eq!(rt; aged.pick(0, 0)?, 1);
        aged.arrive(0, 2, 0, 1, 0)?;
        assert_eq!(rt; aged.pick(0, 1)?, 2);
        aged.arrive(0, 3, 0, 2, 0)?;
        assert_eq!(rt; aged.pick(0, 2)?, 0);
        assert_eq!(rt; aged.pick(0, 3)?, 3);
        Ok(())
    }

    // Flow 3 and flow 0 at once: the flow below 1 goes first.
    #[test]
    fn classes_over_fifo(rt: HostRuntime) -> Result<(), Fail> {
        let mut classes = Classes::new(1, Fifo::new(), Fifo::new());
        classes.arrive(0, 0, 3, 0, 0)?;
        classes.arrive(0, 1, 0, 0, 0)?;
        assert_eq!(rt; classes.pick(0, 0)?, 1);
        assert_eq!(rt; classes.pick(0, 1)?, 0);
        Ok(())
    }

    // Slack 3 since slot 0 is due before slack 2 since slot 2: the due slot decides, not the slack.
    #[test]
    fn due_slots_decide(rt: HostRuntime) -> Result<(), Fail> {
        let mut places = [DueCell::default(); 256];
        assert!(rt; LeastSlack::test(&places).is_ok());
        let mut queue = LeastSlack::new(&mut places);
        queue.arrive(0, 7, 0, 0, 3)?;
        queue.arrive(0, 2, 0, 2, 4)?;
        queue.arrive(0, 5, 0, 2, -1)?;
        assert_eq!(rt; queue.due(2)?, Some(4));
        assert_eq!(rt; queue.most_urgent(0)?, 5);
        assert_eq!(rt; queue.most_urgent(0)?, 7);
        assert_eq!(rt; queue.pick(0, 9)?, 2);
        Ok(())
    }

    // What cannot be made is told beforehand.
    #[test]
    fn tests_before_making(rt: HostRuntime) -> Result<(), Fail> {
        let mut fifo = Fifo::new();
        assert!(rt; refused(Ageing::test(0, &fifo), 20));
        assert!(rt; refused(Classes::test(9, &fifo, &fifo), 20));
        fifo.arrive(3, 4, 0, 0, 0)?;
        assert!(rt; refused(Ageing::test(65535, &fifo), 23));
        assert!(rt; refused(Classes::test(8, &fifo, &fifo), 23));
        let few = [DueCell::default(); 255];
        assert!(rt; refused(LeastSlack::test(&few), 21));
        Ok(())
    }

    // A tower is moved by value when a layer is put on it.
    #[test]
    fn values_are_small(rt: HostRuntime) {
        assert!(rt; size_of::<Fifo>() <= 16384);
        assert!(rt; size_of::<Ageing<Classes<Fifo, Lifo>>>() <= 16384);
        assert!(rt; size_of::<LeastSlack<Table<'_, DueCell>>>() <= 16384);
    }

    // Whether it was refused by this number. Other tests have this line too: a crate for it would be longer.
    fn refused(answer: Result<(), refusal::Refusal>, number: u8) -> bool {
        answer.is_err_and(|refusal| refusal.number() == number)
    }

    // Ageing of 16 over classes of 4 over FIFO and LIFO, beside a list that is searched anew for every pick.
    #[test]
    fn a_tower_beside_a_model(rt: HostRuntime) -> Result<(), Fail> {
        let mut tower = Ageing::new(16, Classes::new(4, Fifo::new(), Lifo::new()));
        let mut model = Model::new(rt.alloc());
        let mut random = Random::new(2026);
        for slot in 0..600u32 {
            let port = random.below(3);
            let cell = random.below(24);
            match random.below(4) {
                0 => assert_eq!(rt; tower.pick(port, slot).ok(), model.pick(port, slot)),
                1 => assert_eq!(rt;
                    tower.withdraw(port, cell).is_ok(),
                    model.withdraw(port, cell)
                ),
                _ => {
                    let flow = random.flow();
                    let came = model.arrive(port, cell, flow, slot)?;
                    assert_eq!(rt; tower.arrive(port, cell, flow, slot, 0).is_ok(), came);
                }
            }
            assert_eq!(rt; tower.count(port)?, model.count(port));
        }
        Ok(())
    }
}
