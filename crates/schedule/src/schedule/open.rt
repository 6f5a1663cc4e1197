// Taking a schedule apart.
ghost use Rattle.std.specs.Prelude.{◌≡◌, map};
ghost use Rattle.layout.specs.Contents.{plan_part};
ghost use Rattle.plan.specs.Plans.{delays_of, cells_of};
ghost use Rattle.schedule.specs.Reading.{content_of};

use crate::schedule::Schedule;
use plan::Plan;

impl Schedule {
    // The plan of a schedule: its ports, and its cells without their marks.
    pub fn into_plan(self) -> Plan
        ensures delays { delays_of result ≡ (content_of self).delays }
        ensures cells { cells_of result ≡ map plan_part (content_of self).cells }
    {
        let Schedule {
            kind: _,
            pile: _,
            plan,
            marks,
        } = self;
        drop(marks);
        plan
    }
}
