// A run of a plan, slot by slot: the recording of what a queue discipline does. docs/RULES.md has the rules of a slot.
#![tactic(auto)]

mod picked;
mod recording;
mod standing;

pub use recording::Recording;
