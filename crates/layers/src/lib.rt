// Disciplines made from disciplines: classes, where cells of the lower flows go first, and ageing, where cells that have
// waited long go first. What is made is a discipline again, so layers may be put on layers.
#![tactic(auto)]

mod ageing;
mod asks;
mod classes;

pub use ageing::Ageing;
pub use classes::Classes;
