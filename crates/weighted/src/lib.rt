//! The choice among the sets of a weighted group.
//!
//! A weight of 0 takes a set out only beside a weight above it: where all are 0, each set has one chance.
#![tactic(auto)]

mod choice;
mod laws;

pub use choice::choose;
pub use laws::{fair_counting, running_sum};
