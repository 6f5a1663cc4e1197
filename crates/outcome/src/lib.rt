// What came of a recording that has ended: how each cell fared, and the recording as a schedule file.
#![tactic(auto)]

mod cell;
mod ended;
mod file;

pub use cell::{CellOutcome, outcome};
pub use ended::Ended;
pub use file::write;
