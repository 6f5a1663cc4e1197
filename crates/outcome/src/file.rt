// A recording as a schedule file.
ghost use Rattle.outcome.specs.Files.{file_test, Filed};

use crate::ended::Ended;
use refusal::Refusal;
use rules::HopRecord;
use run::Recording;
use sheet::{Run, Sheet};

// Writes a recording that has ended to the front of the output, as a canonical schedule file, and returns its length.
pub fn write(recording: &Recording, log: &[HopRecord], out: &mut [u8]) -> Result<usize, Refusal>
    ensures { Filed (file_test recording.now log.now) recording.now log.now out.old result out.new }
{
    let ended = Ended::new(recording, log)?;
    let sheet = Sheet::new(
        Run::Recording,
        recording.pile(),
        recording.plan(),
        &ended.slacks(),
        &ended.slots(),
    )?;
    layout::write(&sheet, out)
}
