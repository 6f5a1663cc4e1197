// The condition of a cell in a run, the record of a hop, and the rules of a slot. docs/RULES.md says them in words; specs/
// has them as relations over whole runs, and proofs/ what follows from them.
#![tactic(auto)]

mod condition;
mod hop;

pub use condition::{CellRecord, Condition, Event};
pub use hop::HopRecord;
