// The least-slack queue: an urgent discipline over the ordered table.
#![tactic(auto)]

mod queue;
mod store;

pub use queue::LeastSlack;
pub use store::Store;
