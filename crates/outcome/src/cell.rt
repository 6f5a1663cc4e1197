// How a cell fared.
ghost use Rattle.std.specs.Prelude.{◌≡◌, pos, ◌-ℤ◌};
ghost use Rattle.discipline.specs.Calls.{told};
ghost use Rattle.outcome.specs.Outcomes.{fared_test, outcome_test, outcome_of};

use refusal::Refusal;
use rules::HopRecord;
use run::Recording;

// The slot in which the cell entered, the slot in which it was sent from its last port, and the slack that this leaves
// it: its exit minus its own entry slot minus its least travel.
#[derive(Clone, Copy)]
pub struct CellOutcome {
    pub entry: u16,
    pub exit: u32,
    pub slack: i64,
}

// What is left of an exit slot after the entry slot and the travel.
fn left_over(exit: u32, entry: u16, travel: u32) -> i64
    ensures { result ≡ pos exit -ℤ pos entry -ℤ pos travel }
{
    i64::from(exit) - i64::from(entry) - i64::from(travel)
}

// How a cell fared by what a recording and its log tell. An unknown cell is refused, and then a log that is shorter than
// the hops; the hops are counted once.
pub(crate) fn fared(
    recording: &Recording,
    log: &[HopRecord],
    cell: usize,
) -> Result<CellOutcome, Refusal>
    ensures { result ≡ told (fared_test recording.now log.now cell) (outcome_of recording.now log.now cell) }
{
    let plan = recording.plan();
    let Some(planned) = plan.cell(cell) else {
        return Err(Refusal::UnknownItem);
    };
    let last = planned.route().ports().len() - 1;
    // the log of a run that was left unaltered has a slot there
    let exit = recording.sent(log, cell, last)?.unwrap_or(0);
    let entry = planned.entry();
    let travel = plan.least_travel(cell).unwrap();
    Ok(CellOutcome {
        entry,
        exit,
        slack: left_over(exit, entry, travel),
    })
}

// How a cell fared in a recording that has ended.
pub fn outcome(
    recording: &Recording,
    log: &[HopRecord],
    cell: usize,
) -> Result<CellOutcome, Refusal>
    ensures { result ≡ told (outcome_test recording.now log.now cell) (outcome_of recording.now log.now cell) }
{
    if !recording.ended() {
        return Err(Refusal::RunNotEnded);
    }
    fared(recording, log, cell)
}
