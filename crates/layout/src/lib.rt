// The schedule file: its content, its canonical bytes, and their writer. docs/FILES.md has the format.
#![tactic(auto)]

mod fields;
mod kind;
mod source;
mod writer;

pub use fields::{CellFields, HopFields};
pub use kind::{Accepts, Kind, Pile, UnknownByte};
pub use source::Source;
pub use writer::{file_length, write};
