// What can be asked of a recording.
ghost use Rattle.std.specs.Prelude.{◌≡◌, false, length, Err, nat_le, slice_index_or};
ghost use Rattle.refusal.specs.declared.Refusal.TheVariants.{UnknownItem};
ghost use Rattle.discipline.specs.Calls.{told};
ghost use Rattle.plan.specs.Plans.{cells_of, delays_of};
ghost use Rattle.run.specs.Asking.{sent_test, port_test};
ghost use Rattle.rules.specs.Loads.{sent_in};

use crate::recording::Recording;
use layout::Pile;
use plan::Plan;
use refusal::Refusal;
use rules::HopRecord;

impl Recording {
    pub fn plan(&self) -> &Plan
        ensures { result.now ≡ self.now.plan }
    {
        &self.plan
    }

    pub fn pile(&self) -> Pile
        ensures { result ≡ self.now.pile }
    {
        self.pile
    }

    // The slot that is performed next.
    pub fn next_slot(&self) -> u32
        ensures { result ≡ self.now.next }
    {
        self.next
    }

    // How many cells have left.
    pub fn gone(&self) -> usize
        ensures { result ≡ self.now.gone }
    {
        self.gone
    }

    // The slot in which a cell was sent from a position of its route, or none yet. An unknown cell or position is refused,
    // and then a log that is shorter than the hops.
    pub fn sent(
        &self,
        log: &[HopRecord],
        cell: usize,
        position: usize,
    ) -> Result<Option<u32>, Refusal>
        ensures { result ≡ told (sent_test (cells_of self.now.plan) log.now cell position) (sent_in (cells_of self.now.plan) log.now cell position) }
    {
        let Some(planned) = self.plan.cell(cell) else {
            return Err(Refusal::UnknownItem);
        };
        if position >= planned.route().ports().len() {
            return Err(Refusal::UnknownItem);
        }
        if log.len() < self.plan.hops() {
            return Err(Refusal::NoPlace);
        }
        Ok(log[self.records[cell].first + position].sent)
    }

    // Whether a cell has waited at a port of the plan.
    pub fn contested(&self, port: usize) -> Result<bool, Refusal>
        ensures { result ≡ told (port_test (delays_of self.now.plan) port) (slice_index_or self.now.contested port false) }
    {
        if port >= self.plan.ports() {
            return Err(Refusal::UnknownItem);
        }
        Ok(self.contested[port])
    }

    // A recording has no slacks yet, so that every cell is refused.
    pub fn slack(&self, _cell: usize) -> Result<i32, Refusal>
        ensures { result ≡ Err UnknownItem }
    {
        Err(Refusal::UnknownItem)
    }

    // Whether every cell is gone.
    pub fn ended(&self) -> bool
        ensures { result ≡ nat_le (length (cells_of self.now.plan)) self.now.gone }
    {
        self.plan.cells() <= self.gone
    }
}
