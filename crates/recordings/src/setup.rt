// Plans to record, and a recording from its seal to its end.
use discipline::Discipline;
use layout::Pile;
use outcome::outcome;
use plan::Plan;
use refusal::Refusal;
use rules::HopRecord;
use run::Recording;
use std::alloc::Global;
use table::Flight;

// A cell to add: its entry slot, its flow and its route.
#[derive(Clone, Copy)]
pub(crate) struct Load<'a> {
    pub(crate) entry: u16,
    pub(crate) flow: u8,
    pub(crate) route: &'a [u8],
}

// A plan of ports with these delays and of these cells.
pub(crate) fn planned(heap: Global, delays: &[u16], cells: &[Load]) -> Result<Plan, Refusal> {
    let mut plan = Plan::new(heap);
    for delay in delays {
        plan.add_port(*delay)?;
    }
    for cell in cells {
        plan.add_cell(cell.entry, cell.flow, cell.route)?;
    }
    Ok(plan)
}

// What came of a recording of at most 8 cells: how many calls of `slot` it took, each cell's exit and slots waited, and
// whether each port was contested.
#[derive(Drop)]
pub(crate) struct Told {
    pub(crate) next: u32,
    pub(crate) exits: Vec<u32>,
    pub(crate) waited: Vec<i64>,
    pub(crate) contested: Vec<bool>,
}

// Records a plan of ports with these delays and of these cells to its end.
pub(crate) fn record_all<D: Discipline>(
    heap: Global,
    delays: &[u16],
    cells: &[Load],
    queue: &mut D,
) -> Result<Told, Refusal> {
    let plan = planned(heap, delays, cells)?;
    let mut flights = [Flight::default(); 8];
    let mut log = [HopRecord::default(); 24];
    Recording::test_seal(&plan, &flights, &log, queue)?;
    let mut recording = Recording::seal(plan, Pile::Fifo, &mut flights, &mut log, queue);
    recording.slots(1000, &mut flights, &mut log, queue);
    let mut told = Told {
        next: recording.next_slot(),
        exits: Vec::new(heap),
        waited: Vec::new(heap),
        contested: Vec::new(heap),
    };
    for cell in 0..recording.gone() {
        let fared = outcome(&recording, &log, cell)?;
        told.exits.push(fared.exit)?;
        told.waited.push(fared.slack)?;
    }
    for port in 0..recording.plan().ports() {
        told.contested.push(recording.contested(port)?)?;
    }
    Ok(told)
}
