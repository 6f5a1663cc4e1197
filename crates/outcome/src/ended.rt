// A recording that has ended.
mod fared;
mod told;

ghost use Rattle.std.specs.Prelude.{◌≤◌, length};
ghost use Rattle.plan.specs.Cells.{hops_in};
ghost use Rattle.plan.specs.Plans.{cells_of};

use rules::HopRecord;
use run::Recording;

// A recording whose cells are all gone, with a hop log that has a record for each of its hops.
#[derive(Clone, Copy)]
pub struct Ended<'a> {
    recording: &'a Recording,
    log: &'a [HopRecord],
    ghost gone: { length (cells_of recording.now.plan) ≤ recording.now.gone },
    ghost long: { hops_in (cells_of recording.now.plan) ≤ length log.now },
}
