// Records a load: reads it from standard input, sends it under the queue discipline that it names, writes the recording
// to recorded.sch, and prints how each cell fared and which ports were contested. A load that is refused is told by
// number and place, and no file is touched.
#![tactic(auto)]

use anyhow::anyhow;
use discipline::Discipline;
use layers::{Ageing, Classes};
use layout::{Pile, Source};
use outcome::write;
use plan::Plan;
use queues::{Fifo, Lifo};
use refusal::Refusal;
use rules::HopRecord;
use run::Recording;
use schedule::{Schedule, read_bytes};
use std::alloc::Global;
use std::fs;
use summary::summary;
use table::Flight;

// One more than the last slot of the longest run.
const CALLS: u32 = 587_521;

// How long the file of the largest recording is.
const LONGEST_FILE: usize = 19_016;

// A recording as it is given out: its file, and its text.
#[derive(Drop)]
struct Recorded {
    file: Vec<u8>,
    text: String,
}

// Records a plan under a queue discipline that holds no cell.
fn record<D: Discipline>(
    heap: Global,
    plan: Plan,
    pile: Pile,
    queue: &mut D,
) -> Result<Recorded, Refusal> {
    let mut flights = vec![in heap; Flight::default(); plan.cells()]?;
    let mut log = vec![in heap; HopRecord::default(); plan.hops()]?;
    let mut file = vec![in heap; 0u8; LONGEST_FILE]?;
    Recording::test_seal(&plan, &flights, &log, queue)?;
    let mut recording = Recording::seal(plan, pile, &mut flights, &mut log, queue);
    recording.slots(CALLS, &mut flights, &mut log, queue);
    let length = write(&recording, &log, &mut file)?;
    file.truncate(length);
    let text = summary(heap, &recording, &log)?;
    Ok(Recorded { file, text })
}

// Records the load in a file under the queue discipline that it names.
fn record_load(heap: Global, bytes: &[u8]) -> Result<Recorded, Refusal> {
    let load = Schedule::read_load(heap, bytes)?;
    let pile = load.pile();
    let plan = load.into_plan();
    // a run is generic over its discipline, and each pile has one of its own type
    match pile {
        Pile::Fifo => record(heap, plan, pile, &mut Fifo::new()),
        Pile::Lifo => record(heap, plan, pile, &mut Lifo::new()),
        Pile::Aged => {
            let classes = Classes::new(4, Fifo::new(), Lifo::new());
            record(heap, plan, pile, &mut Ageing::new(16, classes))
        }
    }
}

fn replay(rt: &HostRuntime) -> anyhow::Result<()> {
    let bytes = read_bytes(rt.alloc(), rt.stdin())?;
    match record_load(rt.alloc(), bytes.as_slice()) {
        Ok(Recorded { file, text }) => {
            fs::write(rt, "recorded.sch", file.as_slice())?;
            rt.print(text.as_str())?;
        }
        Err(Refusal::NoMemory) => return Err(anyhow!("no memory")),
        Err(refusal) => println!(rt; "{refusal}")?,
    }
    Ok(())
}

fn main(rt: HostRuntime) -> anyhow::Result<()> {
    replay(&rt)
}
