// An ordered table over a lent slice. It serves every kind of element that brings a total order; two kinds are here.
#![tactic(auto)]

mod due;
mod flight;
mod order;
mod table;

pub use due::DueCell;
pub use flight::Flight;
pub use order::Ordered;
pub use table::Table;

#[cfg(test)]
mod tests;
