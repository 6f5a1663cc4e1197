// One slot of a run.
ghost use Rattle.std.specs.Prelude.{◌≡◌, ℕ, ◌<◌, ◌≤◌, true, List, length, if◌then◌else◌, Some, OnErr, OnOk, nat_lt, slice_index, slice_set};
ghost use Rattle.refusal.specs.Tests.{tested};
ghost use Rattle.discipline.specs.Meaning.{count_at};
ghost use Rattle.plan.specs.Cells.{hops_in};
ghost use Rattle.plan.specs.Plans.{cells_of, delays_of};
ghost use Rattle.rules.specs.declared.hop.HopRecord.{HopRecord};
ghost use Rattle.rules.specs.Coherence.{Flying};
ghost use Rattle.rules.specs.Moments.{pending};
ghost use Rattle.run.specs.Recordings.{network_of, flows, moment, Kept};
ghost use Rattle.rules.specs.Rules.{Arrives};
ghost use Rattle.run.specs.Slots.{Coherent, Performed, Called, AllGone, ended, slot_test};
ghost use Rattle.rules.specs.Landing.{Landing};
ghost use Rattle.run.specs.Steps.{InSlot, Enters, SentOn, Flown, Turn, Turns};
ghost use Rattle.table.specs.Elements.{elements, full, SamePlaces};

use crate::picked::Picked;
use crate::recording::Recording;
use crate::recording::seal::too_short;
use discipline::Discipline;
use refusal::Refusal;
use rules::{Event, HopRecord};
use table::{Flight, Table};

// No run performs a slot past this one: entry slots end at 65,535, and each of the other 2,047 hops that there can be
// puts the last exit off by a delay of 255 at most.
const LAST_SLOT: u32 = 65_535 + 2_047 * 255;

// The first cell that lands in a slot, if one does; its flight is taken out.
fn take_landing(flights: &mut Table<Flight>, slot: u32) -> Option<usize>
    ensures taken { Landing slot (elements flights.old) result (elements flights.new) }
    ensures places { SamePlaces flights.old flights.new }
{
    let mark = Flight { slot, cell: 0 };
    flights.first(&mark).filter(|flight| flight.slot == slot)?;
    flights.take_first(&mark).map(|flight| flight.cell)
}

// Notes in the hop log the slot in which a cell is sent.
fn note(log: &mut [HopRecord], place: usize, slot: u32)
    ensures { log.new ≡ slice_set log.old place (record { sent = Some slot }) }
{
    // by an index, since what is written behind `get_mut` is lost to the proof
    if place < log.len() {
        log[place].sent = Some(slot);
    }
}

// Flights, log and discipline are lent to each call: handed on one by one, they show what a part may change. `Kept` relates
// two states, so no field can hold it, and the members of a discipline go side by side, as in the clauses of `slot`.
impl Recording {
    // A cell enters or lands: it waits from now on, and the queue discipline is told.
    fn enter<D: Discipline>(&mut self, cell: usize, queue: &mut D)
        ensures same { Kept self.old self.new }
        ensures arrives { (log : List HopRecord) → InSlot D.Discipline.waiting D.Discipline.sound self.old log queue.old → cell < length (cells_of self.old.plan) → pending (network_of self.old) cell ((moment self.old log queue.old).condition cell) ≡ Some self.old.next → Arrives (network_of self.old) (flows self.old) self.old.next D.Discipline.waiting D.Discipline.arrives D.Discipline.picks cell (moment self.old log queue.old) (moment self.new log queue.new) }
    {
        if cell >= self.plan.cells() {
            return;
        }
        let slot = self.next;
        self.happen(cell, Event::Arrive { slot });
        if let Some(standing) = self.standing(cell) {
            let _ = queue.arrive(standing.port, cell, standing.flow, slot, 0);
        }
    }

    // All cells that enter or land in this slot, in ascending number.
    fn enter_all<D: Discipline>(&mut self, flights: &mut Table<Flight>, queue: &mut D)
        ensures same { Kept self.old self.new }
        ensures enters { Enters D.Discipline.waiting D.Discipline.sound D.Discipline.arrives D.Discipline.picks self.old queue.old (elements flights.old) self.new queue.new (elements flights.new) }
        ensures places { SamePlaces flights.old flights.new }
    {
        let slot = self.next;
        while let Some(cell) = take_landing(flights, slot) {
            self.enter(cell, queue);
        }
    }

    // Sends a picked cell from a port.
    fn send(
        &mut self,
        picked: Picked,
        port: usize,
        flights: &mut Table<Flight>,
        log: &mut [HopRecord],
    )
        requires { (port < length (delays_of self.old.plan)) × (picked.cell < length (cells_of self.old.plan)) }
        ensures sent { SentOn self.old picked.cell picked.standing (slice_index (delays_of self.old.plan) port) self.new }
        ensures log { log.new ≡ slice_set log.old picked.standing.place (record { sent = Some self.old.next }) }
        ensures flown { Flown self.old picked.cell picked.standing (slice_index (delays_of self.old.plan) port) (full flights.old) (elements flights.old) (elements flights.new) }
        ensures places { SamePlaces flights.old flights.new }
    {
        let slot = self.next;
        let cell = picked.cell;
        note(log, picked.standing.place, slot);
        let own = &mut self.records[cell];
        if picked.standing.goes_on {
            let until = slot + u32::from(self.plan.delays()[port]);
            picked.forward(own, until, flights);
        } else {
            picked.let_out(own);
            self.gone = self.gone.saturating_add(1);
        }
    }

    // Marks a port as contested if a cell waits there.
    fn mark<D: Discipline>(&mut self, port: usize, queue: &D)
        requires { port < 32 }
        ensures same { Kept self.old self.new }
        ensures records { self.new.records.items ≡ self.old.records.items }
        ensures gone { self.new.gone ≡ self.old.gone }
        ensures contested { D.Discipline.sound queue.now → self.new.contested ≡ (if nat_lt 0 (count_at (D.Discipline.waiting queue.now) port) then slice_set self.old.contested port true else self.old.contested) }
    {
        if queue.count(port).is_ok_and(|cells| cells > 0) {
            self.contested[port] = true;
        }
    }

    // The turn of a port: it sends the cell that the queue discipline picks, if one waits there.
    fn serve<D: Discipline>(
        &mut self,
        port: usize,
        flights: &mut Table<Flight>,
        log: &mut [HopRecord],
        queue: &mut D,
    )
        requires { port < length (delays_of self.old.plan) }
        ensures same { Kept self.old self.new }
        ensures turn { Turn D.Discipline.waiting D.Discipline.sound D.Discipline.arrives D.Discipline.picks (length flights.old.places.now) port self.old log.old queue.old (elements flights.old) self.new log.new queue.new (elements flights.new) }
        ensures places { SamePlaces flights.old flights.new }
    {
        let Ok(cell) = queue.pick(port, self.next) else {
            return;
        };
        let Some(standing) = self.standing(cell) else {
            return;
        };
        self.send(Picked { cell, standing }, port, flights, log);
        self.mark(port, queue);
    }

    // The turns of all ports, in ascending number.
    fn serve_all<D: Discipline>(
        &mut self,
        flights: &mut Table<Flight>,
        log: &mut [HopRecord],
        queue: &mut D,
    )
        ensures same { Kept self.old self.new }
        ensures turns { Turns D.Discipline.waiting D.Discipline.sound D.Discipline.arrives D.Discipline.picks (length flights.old.places.now) (length (delays_of self.old.plan)) self.old log.old queue.old (elements flights.old) self.new log.new queue.new (elements flights.new) }
        ensures places { SamePlaces flights.old flights.new }
    {
        for port in 0..self.plan.ports() {
            self.serve(port, flights, log, queue);
        }
    }

    // Refuses a slot: when every cell is gone, and where the memory is too short for the cells and hops of the plan.
    fn test_slot(&self, flights: &[Flight], log: &[HopRecord]) -> Result<(), Refusal>
        ensures value { result ≡ tested (slot_test self.now flights.now log.now) }
        ensures early { OnOk result (self.now.next ≤ 587520) }
    {
        if self.gone >= self.plan.cells() || self.next > LAST_SLOT {
            return Err(Refusal::RunEnded);
        }
        if too_short(&self.plan, flights, log) {
            return Err(Refusal::NoPlace);
        }
        Ok(())
    }

    // Performs the next slot, which is not refused.
    fn advance<D: Discipline>(
        &mut self,
        flights: &mut [Flight],
        log: &mut [HopRecord],
        queue: &mut D,
    )
        requires { self.old.next ≤ 587520 }
        ensures { Coherent D.Discipline.waiting D.Discipline.sound self.old flights.old log.old queue.old → Performed D.Discipline.waiting D.Discipline.sound D.Discipline.arrives D.Discipline.picks self.old log.old queue.old self.new flights.new log.new queue.new }
    {
        let mut table = Table::resume(flights, self.flying);
        self.enter_all(&mut table, queue);
        self.serve_all(&mut table, log, queue);
        self.flying = table.len();
        self.next += 1;
    }

    // Performs the next slot: the cells that enter or land in it, in ascending number, and then the ports, in ascending
    // number. What is handed in is to be as the seal or the last slot left it; else the slot is safe, and what it does is
    // open.
    pub fn slot<D: Discipline>(
        &mut self,
        flights: &mut [Flight],
        log: &mut [HopRecord],
        queue: &mut D,
    ) -> Result<(), Refusal>
        ensures value { result ≡ tested (slot_test self.old flights.old log.old) }
        ensures refused { OnErr result ((self.new ≡ self.old) × (flights.new ≡ flights.old) × (log.new ≡ log.old) × (queue.new ≡ queue.old)) }
        ensures performed { Coherent D.Discipline.waiting D.Discipline.sound self.old flights.old log.old queue.old → OnOk result (Performed D.Discipline.waiting D.Discipline.sound D.Discipline.arrives D.Discipline.picks self.old log.old queue.old self.new flights.new log.new queue.new) }
        ensures ends { Coherent D.Discipline.waiting D.Discipline.sound self.old flights.old log.old queue.old → (ended self.old ≡ true → AllGone self.old) × (AllGone self.old → ended self.old ≡ true) }
    {
        self.test_slot(flights, log)?;
        self.advance(flights, log, queue);
        Ok(())
    }

    // Makes so many calls of `slot`, refused ones counted. With one call more than the bound on the last exit, every
    // cell is gone.
    pub fn slots<D: Discipline>(
        &mut self,
        calls: u32,
        flights: &mut [Flight],
        log: &mut [HopRecord],
        queue: &mut D,
    )
        ensures { Coherent D.Discipline.waiting D.Discipline.sound self.old flights.old log.old queue.old → Called D.Discipline.waiting D.Discipline.sound D.Discipline.arrives D.Discipline.picks calls self.old log.old queue.old self.new flights.new log.new queue.new }
    {
        for _call in 0..calls {
            let _ = self.slot(flights, log, queue);
        }
    }
}
