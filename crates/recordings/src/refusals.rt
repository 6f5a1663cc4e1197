// What a recording refuses.
use crate::setup::{Load, planned};
use discipline::Discipline;
use layout::Pile;
use outcome::{outcome, write};
use queues::Fifo;
use refusal::Refusal;
use rules::HopRecord;
use run::Recording;
use std::test::Fail;
use table::Flight;

// The number of a refusal, or none. Other tests have this line too: a crate for it would be longer.
fn number<T: Drop>(answer: Result<T, Refusal>) -> Option<u8> {
    answer.err().map(|refusal| refusal.number())
}

#[test]
fn seals_are_tested(rt: HostRuntime) -> Result<(), Fail> {
    let flights = [Flight::default(); 2];
    let log = [HopRecord::default(); 3];
    let mut queue = Fifo::new();
    let empty = planned(rt.alloc(), &[1], &[])?;
    assert!(rt; number(Recording::test_seal(&empty, &flights, &log, &queue)) == Some(12));
    let cells = [
        Load {
            entry: 0,
            flow: 0,
            route: &[0, 1],
        },
        Load {
            entry: 0,
            flow: 0,
            route: &[1],
        },
    ];
    let plan = planned(rt.alloc(), &[1, 1], &cells)?;
    assert!(rt; number(Recording::test_seal(&plan, &flights[0..1], &log, &queue)) == Some(21));
    assert!(rt; number(Recording::test_seal(&plan, &flights, &log[0..2], &queue)) == Some(21));
    assert!(rt; number(Recording::test_seal(&plan, &flights, &log, &queue)) == None);
    queue.arrive(3, 9, 0, 0, 0)?;
    assert!(rt; number(Recording::test_seal(&plan, &flights, &log, &queue)) == Some(23));
    Ok(())
}

#[test]
fn nothing_is_told_before_the_end(rt: HostRuntime) -> Result<(), Fail> {
    let mut flights = [Flight::default(); 1];
    let mut log = [HopRecord::default(); 2];
    let mut out = [7; 38];
    let mut queue = Fifo::new();
    let cells = [Load {
        entry: 1,
        flow: 0,
        route: &[1, 0],
    }];
    let plan = planned(rt.alloc(), &[4, 3], &cells)?;
    let mut recording = Recording::seal(plan, Pile::Lifo, &mut flights, &mut log, &queue);
    recording.slots(3, &mut flights, &mut log, &mut queue);
    assert!(rt; number(write(&recording, &log, &mut out)) == Some(14));
    assert!(rt; out[0] == 7);
    assert!(rt; number(outcome(&recording, &log, 0)) == Some(14));
    assert!(rt; recording.sent(&log, 0, 0)? == Some(1));
    assert!(rt; recording.sent(&log, 0, 1)? == None);
    assert!(rt; number(recording.sent(&log, 0, 2)) == Some(15));
    assert!(rt; number(recording.sent(&log, 1, 0)) == Some(15));
    assert!(rt; number(recording.contested(2)) == Some(15));
    assert!(rt; number(recording.slack(0)) == Some(15));
    Ok(())
}

#[test]
fn memory_and_the_end_are_tested(rt: HostRuntime) -> Result<(), Fail> {
    let mut flights = [Flight::default(); 1];
    let mut log = [HopRecord::default(); 2];
    let mut short = [HopRecord::default(); 1];
    let mut small = [7; 37];
    let mut out = [7; 38];
    let mut queue = Fifo::new();
    let cells = [Load {
        entry: 1,
        flow: 0,
        route: &[1, 0],
    }];
    let plan = planned(rt.alloc(), &[4, 3], &cells)?;
    let mut recording = Recording::seal(plan, Pile::Lifo, &mut flights, &mut log, &queue);
    assert!(rt; number(recording.slot(&mut flights, &mut short, &mut queue)) == Some(21));
    assert!(rt; recording.next_slot() == 0);
    recording.slots(9, &mut flights, &mut log, &mut queue);
    assert!(rt; recording.gone() == 1 && recording.next_slot() == 5);
    assert!(rt; number(recording.slot(&mut flights, &mut log, &mut queue)) == Some(13));
    assert!(rt; number(recording.sent(&short, 0, 0)) == Some(21));
    assert!(rt; number(write(&recording, &log, &mut small)) == Some(22));
    assert!(rt; small[0] == 7);
    assert!(rt; write(&recording, &log, &mut out)? == 38);
    assert!(rt; out[0] == 2 && out[1] == 1);
    Ok(())
}
