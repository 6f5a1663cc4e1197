// What a file tells of a recording that has ended.
ghost use Rattle.std.specs.Prelude.{◌≡◌, ℕ, ◌<◌, map, length, pos, take, slice_index_or};
ghost use Rattle.arrayvec.specs.ArrayVec.{array_vec_len};
ghost use Rattle.plan.specs.Cells.{hops_in};
ghost use Rattle.plan.specs.Plans.{cells_of};
ghost use Rattle.outcome.specs.Ends.{slot_told};
ghost use Rattle.outcome.specs.Outcomes.{held_slack, slack_left};

use crate::ended::Ended;
use arrayvec::ArrayVec;

// A slack as a file holds it: the nearest that 32 bits have. The cast is proved to lose nothing.
fn held(slack: i64) -> i32
    ensures { result ≡ held_slack slack }
{
    slack.clamp(i64::from(i32::MIN), i64::from(i32::MAX)) as i32
}

impl Ended<'_> {
    // The slack of each cell, as a file holds it.
    pub(crate) fn slacks(&self) -> ArrayVec<i32, 256>
        ensures long { array_vec_len result ≡ length (cells_of self.now.recording.now.plan) }
        ensures slacks { (c : ℕ) → c < length (cells_of self.now.recording.now.plan) → slice_index_or result.items c (pos 0) ≡ held_slack (slack_left self.now.recording.now self.now.log.now c) }
    {
        let mut slacks = ArrayVec::new();
        for cell in 0..self.cells() {
            slacks.push(held(self.fared(cell).unwrap().slack));
        }
        slacks
    }

    // The slot in which a cell was sent from each hop, with 0 for a hop from which none was.
    pub(crate) fn slots(&self) -> ArrayVec<u32, 2048>
        ensures { result.items ≡ map slot_told (take (hops_in (cells_of self.now.recording.now.plan)) self.now.log.now) }
    {
        let mut slots = ArrayVec::new();
        for hop in &self.log[..self.recording.plan().hops()] {
            slots.push(hop.sent.unwrap_or(0));
        }
        slots
    }
}
