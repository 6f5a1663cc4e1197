// How a plan becomes a recording.
ghost use Rattle.std.specs.Prelude.{◌≡◌, ◌≤◌, ◌||◌, [], length, take, nat_lt};
ghost use Rattle.discipline.specs.Meaning.{Empty};
ghost use Rattle.plan.specs.Cells.{hops_in};
ghost use Rattle.plan.specs.Plans.{cells_of};
ghost use Rattle.run.specs.Sealing.{SealTested, Ready, launched, Cleared, Starting};
ghost use Rattle.run.specs.Slots.{Coherent};
ghost use Rattle.table.specs.Elements.{elements, SamePlaces};

use crate::recording::Recording;
use arrayvec::ArrayVec;
use discipline::{Discipline, holds_none};
use layout::Pile;
use plan::Plan;
use refusal::Refusal;
use rules::{CellRecord, Condition, HopRecord};
use table::{Flight, Table};

// Whether there are fewer flights than cells, or fewer records than hops.
pub(crate) fn too_short(plan: &Plan, flights: &[Flight], log: &[HopRecord]) -> bool
    ensures { result ≡ (nat_lt (length flights.now) (length (cells_of plan.now)) || nat_lt (length log.now) (hops_in (cells_of plan.now))) }
{
    flights.len() < plan.cells() || log.len() < plan.hops()
}

// A record for each cell, which is outside.
fn outside(plan: &Plan) -> ArrayVec<CellRecord, 256>
    ensures { Ready (cells_of plan.now) (length (cells_of plan.now)) result.items }
{
    let mut records = ArrayVec::new();
    let mut first = 0;
    for cell in plan.all_cells() {
        records.push(CellRecord {
            condition: Condition::Outside,
            first,
        });
        first += cell.route().ports().len();
    }
    records
}

// Puts the flight of each cell to its entry slot into an empty table.
fn put_flights(plan: &Plan, table: &mut Table<Flight>)
    ensures flights { elements table.old ≡ [] → length (cells_of plan.now) ≤ length table.old.places.now → elements table.new ≡ launched (cells_of plan.now) (length (cells_of plan.now)) }
    ensures places { SamePlaces table.old table.new }
{
    for (number, cell) in plan.all_cells().iter().enumerate() {
        let slot = u32::from(cell.entry());
        let _ = table.put(Flight { slot, cell: number });
    }
}

// Gives each cell its flight to its entry slot, and answers how many flights there are.
fn launch(plan: &Plan, flights: &mut [Flight]) -> usize
    ensures { length (cells_of plan.now) ≤ length flights.old → take result flights.new ≡ launched (cells_of plan.now) (length (cells_of plan.now)) }
{
    let mut table = Table::new(flights);
    put_flights(plan, &mut table);
    table.len()
}

// Takes the slots out of the records of the first hops, or out of all where there are fewer.
fn clear(log: &mut [HopRecord], hops: usize)
    ensures { Cleared hops log.old log.new }
{
    let end = hops.min(log.len());
    log[..end].fill(HopRecord::default());
}

impl Recording {
    // Whether a plan can be sealed with this memory and this queue discipline: it has a cell, there is a flight for each
    // cell and a record for each hop, and no cell waits. It takes nothing.
    pub fn test_seal<D: Discipline>(
        plan: &Plan,
        flights: &[Flight],
        log: &[HopRecord],
        queue: &D,
    ) -> Result<(), Refusal>
        ensures { D.Discipline.sound queue.now → SealTested (cells_of plan.now) flights.now log.now (D.Discipline.waiting queue.now) result }
    {
        if plan.cells() == 0 {
            return Err(Refusal::NoCells);
        }
        if too_short(plan, flights, log) {
            return Err(Refusal::NoPlace);
        }
        if !holds_none(queue) {
            return Err(Refusal::HoldsCells);
        }
        Ok(())
    }

    // Seals a plan: from here on no cell can be added. Every cell is outside and has its flight to its entry slot. A seal
    // that the test refuses is safe, and its flights may lack cells.
    pub fn seal<D: Discipline>(
        plan: Plan,
        pile: Pile,
        flights: &mut [Flight],
        log: &mut [HopRecord],
        queue: &D,
    ) -> Recording
        ensures plan { (result.plan ≡ plan) × (result.pile ≡ pile) }
        ensures start { Starting result }
        ensures log { Cleared (hops_in (cells_of plan)) log.old log.new }
        ensures coherent { D.Discipline.sound queue.now → Empty (D.Discipline.waiting queue.now) → length (cells_of plan) ≤ length flights.old → hops_in (cells_of plan) ≤ length log.old → Coherent D.Discipline.waiting D.Discipline.sound result flights.new log.new queue.now }
    {
        let records = outside(&plan);
        let flying = launch(&plan, flights);
        clear(log, plan.hops());
        Recording {
            plan,
            pile,
            records,
            contested: [false; 32],
            next: 0,
            gone: 0,
            flying,
        }
    }
}
