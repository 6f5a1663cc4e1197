// The plan and the marks that a file holds, gathered once all its fields have passed.
ghost use Rattle.std.specs.Prelude.{◌≡◌, ◌<◌, ◌≤◌};
ghost use Rattle.refusal.specs.Tests.{tested};
ghost use Rattle.layout.specs.Order.{reached, unreached_test};
ghost use Rattle.schedule.specs.Chains.{Seen};
ghost use Rattle.schedule.specs.Gathering.{FieldsTested, Opened, GatheredTo, CellGathered, AllGathered};

use crate::checked::{Checked, Gathering};
use crate::image::Image;
use crate::marks::Marks;
use crate::order::test_each;
use plan::Plan;
use refusal::Refusal;
use std::alloc::Global;

impl<'a> Checked<'a> {
    // The tests of all fields.
    pub(crate) fn new(image: Image<'a>) -> Result<Checked<'a>, Refusal>
        ensures { FieldsTested image.entry result }
    {
        image.test_fields()?;
        Ok(Checked { image })
    }

    // The ports of the file, and no cell yet.
    fn open(&self, heap: Global) -> Result<Gathering, Refusal>
        ensures { Opened self.now.image.bytes.now self.now.image.head.kind result }
    {
        let mut plan = Plan::new(heap);
        for port in 0..self.image.ports() {
            plan.add_port(self.image.delay(port))?;
        }
        Ok(Gathering {
            seen: [false; 2049],
            plan,
            marks: Vec::new(heap),
        })
    }

    // One cell more: in the plan, with the route that its chain gives, and its marks.
    fn gather_cell(&self, cell: usize, gathering: &mut Gathering) -> Result<(), Refusal>
        requires known { cell < self.now.image.head.cells }
        requires gathered { GatheredTo self.now.image.bytes.now self.now.image.head.kind cell gathering.old }
        ensures { CellGathered self.now.image.bytes.now self.now.image.head.kind cell result gathering.new }
    {
        let raw = self.image.cell(cell);
        let found = self.walk(cell, &mut gathering.seen)?;
        gathering.plan.add_cell(raw.entry, raw.flow, found.ports())?;
        let slack = raw.slack.cast_signed();
        let sent = found.sent();
        gathering.marks.push(Marks { slack, sent })?;
        Ok(())
    }

    // Refuses a hop record that no chain has reached.
    fn test_reached(&self, index: usize, seen: &[bool; 2049]) -> Result<(), Refusal>
        requires known { index ≤ self.now.image.head.hops }
        requires seen { Seen seen.now (reached self.now.image.bytes.now self.now.image.head.cells) }
        ensures { result ≡ tested (unreached_test self.now.image.bytes.now index) }
    {
        if seen[index] {
            Ok(())
        } else {
            Err(Refusal::BadChain(index))
        }
    }

    // All that the file holds, with its chains tested to the end.
    pub(crate) fn gather(&self, heap: Global) -> Result<Gathering, Refusal>
        ensures { AllGathered self.now.image.bytes.now self.now.image.head.kind result }
    {
        let mut gathering = self.open(heap)?;
        for cell in 0..self.image.cells() {
            self.gather_cell(cell, &mut gathering)?;
        }
        let seen = &gathering.seen;
        test_each(self.image.hops(), |k| self.test_reached(k + 1, seen))?;
        Ok(gathering)
    }
}
