// Queue disciplines behind one interface. docs/RULES.md says what a discipline means and what one owes.
#![tactic(auto)]

mod empty;
mod interface;
mod limits;
mod stay;
mod urgent;

pub use empty::holds_none;
pub use interface::Discipline;
pub use limits::{test_arrival, test_cell, test_place, test_port};
pub use stay::Stay;
pub use urgent::Urgent;
