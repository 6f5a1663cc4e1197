// Small loads and their schedules.
use crate::setup::{Load, record_all};
use layers::{Ageing, Classes};
use queues::{Fifo, Lifo};
use std::test::Fail;

#[test]
fn a_cell_alone_only_travels(rt: HostRuntime) -> Result<(), Fail> {
    let cells = [Load {
        entry: 10,
        flow: 0,
        route: &[0, 1],
    }];
    let recorded = record_all(rt.alloc(), &[5, 5], &cells, &mut Fifo::new())?;
    assert!(rt; recorded.exits.as_slice() == [15].as_slice() && recorded.next == 16);
    assert!(rt; recorded.waited.as_slice() == [0].as_slice());
    assert!(rt; recorded.contested.as_slice() == [false, false].as_slice());
    Ok(())
}

#[test]
fn last_in_first_out_crosses(rt: HostRuntime) -> Result<(), Fail> {
    let cells = [
        Load {
            entry: 0,
            flow: 0,
            route: &[0],
        },
        Load {
            entry: 0,
            flow: 0,
            route: &[0, 1, 2],
        },
        Load {
            entry: 2,
            flow: 0,
            route: &[1],
        },
        Load {
            entry: 3,
            flow: 0,
            route: &[1],
        },
        Load {
            entry: 2,
            flow: 0,
            route: &[2],
        },
        Load {
            entry: 3,
            flow: 0,
            route: &[2],
        },
    ];
    let recorded = record_all(rt.alloc(), &[1, 1, 1], &cells, &mut Lifo::new())?;
    assert!(rt; recorded.exits.as_slice() == [1, 4, 2, 3, 2, 3].as_slice());
    assert!(rt; recorded.waited.as_slice() == [1, 2, 0, 0, 0, 0].as_slice());
    assert!(rt; recorded.contested.as_slice() == [true, false, true].as_slice());
    Ok(())
}

// Cell 1 lands at port 1 in slot 2, when cells 0 and 2 enter there: they are told as 0, 1, 2.
#[test]
fn landing_and_entering_cells_come_in_one_order(rt: HostRuntime) -> Result<(), Fail> {
    let cells = [
        Load {
            entry: 2,
            flow: 0,
            route: &[1],
        },
        Load {
            entry: 0,
            flow: 0,
            route: &[0, 1],
        },
        Load {
            entry: 2,
            flow: 0,
            route: &[1],
        },
    ];
    let recorded = record_all(rt.alloc(), &[2, 1], &cells, &mut Fifo::new())?;
    assert!(rt; recorded.exits.as_slice() == [2, 3, 4].as_slice());
    let recorded = record_all(rt.alloc(), &[2, 1], &cells, &mut Lifo::new())?;
    assert!(rt; recorded.exits.as_slice() == [4, 3, 2].as_slice());
    Ok(())
}

#[test]
fn old_cells_go_first(rt: HostRuntime) -> Result<(), Fail> {
    let cells = [
        Load {
            entry: 0,
            flow: 0,
            route: &[0],
        },
        Load {
            entry: 0,
            flow: 0,
            route: &[0],
        },
        Load {
            entry: 1,
            flow: 0,
            route: &[0],
        },
        Load {
            entry: 2,
            flow: 0,
            route: &[0],
        },
    ];
    let mut queue = Ageing::new(2, Lifo::new());
    let recorded = record_all(rt.alloc(), &[1], &cells, &mut queue)?;
    assert!(rt; recorded.exits.as_slice() == [2, 0, 1, 3].as_slice());
    Ok(())
}

#[test]
fn low_flows_go_first(rt: HostRuntime) -> Result<(), Fail> {
    let cells = [
        Load {
            entry: 0,
            flow: 3,
            route: &[0],
        },
        Load {
            entry: 0,
            flow: 0,
            route: &[0],
        },
    ];
    let mut queue = Classes::new(1, Fifo::new(), Fifo::new());
    let recorded = record_all(rt.alloc(), &[1], &cells, &mut queue)?;
    assert!(rt; recorded.exits.as_slice() == [1, 0].as_slice());
    Ok(())
}

// Two cells at one port, and a third that waits for neither: a port that is busy is not contested by that alone.
#[test]
fn a_port_is_contested_by_waiting(rt: HostRuntime) -> Result<(), Fail> {
    let cells = [
        Load {
            entry: 0,
            flow: 0,
            route: &[0],
        },
        Load {
            entry: 1,
            flow: 0,
            route: &[0],
        },
        Load {
            entry: 0,
            flow: 0,
            route: &[1],
        },
        Load {
            entry: 0,
            flow: 0,
            route: &[1],
        },
    ];
    let recorded = record_all(rt.alloc(), &[7, 9], &cells, &mut Fifo::new())?;
    assert!(rt; recorded.exits.as_slice() == [0, 1, 0, 1].as_slice());
    assert!(rt; recorded.contested.as_slice() == [false, true].as_slice());
    Ok(())
}
