// The cells of a recording.
ghost use Rattle.std.specs.Prelude.{◌≡◌, ◌<◌, length, slice_index_or, slice_set};
ghost use Rattle.plan.specs.Plans.{cells_of};
ghost use Rattle.rules.specs.Conditions.{next_condition};
ghost use Rattle.run.specs.Offsets.{no_record};
ghost use Rattle.run.specs.Recordings.{Kept};
ghost use Rattle.run.specs.Steps.{Stands};

use crate::picked::Picked;
use crate::recording::Recording;
use crate::standing::Standing;
use rules::{Condition, Event};

impl Recording {
    // Where a cell waits.
    pub(crate) fn standing(&self, cell: usize) -> Option<Standing>
        ensures { Stands self.now cell result }
    {
        let planned = self.plan.cell(cell)?;
        let own = self.records[cell];
        let Condition::Waiting { position, .. } = own.condition else {
            return None;
        };
        let route = planned.route();
        let ports = route.ports();
        let port = *ports.get(position)?;
        Some(Standing {
            position,
            port: usize::from(port),
            flow: planned.flow(),
            goes_on: position + 1 < ports.len(),
            place: own.first + position,
        })
    }

    // Something happens to a cell.
    pub(crate) fn happen(&mut self, cell: usize, event: Event)
        requires { cell < length (cells_of self.old.plan) }
        ensures kept { Kept self.old self.new }
        ensures records { self.new.records.items ≡ slice_set self.old.records.items cell (record { condition = next_condition (slice_index_or self.old.records.items cell no_record).condition event; first = (slice_index_or self.old.records.items cell no_record).first }) }
        ensures contested { self.new.contested ≡ self.old.contested }
        ensures gone { self.new.gone ≡ self.old.gone }
    {
        self.records[cell].happen(event);
    }
}
