// A schedule file as a value: reading it, and what it holds. docs/FILES.md has the format and the order of the tests.
#![tactic(auto)]

mod chain;
mod checked;
mod head;
mod image;
mod input;
mod marks;
mod numbers;
mod order;
mod raw;
mod schedule;

pub use input::read_bytes;
pub use marks::Marks;
pub use schedule::Schedule;
