// How the cells of a recording that has ended fared.
ghost use Rattle.std.specs.Prelude.{◌≡◌, length};
ghost use Rattle.plan.specs.Plans.{cells_of, Asked};
ghost use Rattle.outcome.specs.Ends.{Opens};
ghost use Rattle.outcome.specs.Outcomes.{outcome_of};

use crate::cell::{CellOutcome, fared};
use crate::ended::Ended;
use refusal::Refusal;
use rules::HopRecord;
use run::Recording;

impl<'a> Ended<'a> {
    // Refused before every cell is gone, and where the log is shorter than the hops.
    pub fn new(recording: &'a Recording, log: &'a [HopRecord]) -> Result<Ended<'a>, Refusal>
        ensures { Opens recording.now log.now result }
    {
        if !recording.ended() {
            return Err(Refusal::RunNotEnded);
        }
        if log.len() < recording.plan().hops() {
            return Err(Refusal::NoPlace);
        }
        Ok(Ended { recording, log })
    }

    // How many cells there are.
    pub fn cells(&self) -> usize
        ensures { result ≡ length (cells_of self.now.recording.now.plan) }
    {
        self.recording.plan().cells()
    }

    // How a cell fared, or none past the last cell.
    pub fn fared(&self, cell: usize) -> Option<CellOutcome>
        ensures { Asked (length (cells_of self.now.recording.now.plan)) cell result (λ o. o ≡ outcome_of self.now.recording.now self.now.log.now cell) }
    {
        fared(self.recording, self.log, cell).ok()
    }
}
