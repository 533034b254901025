//! The choice among the sets of a multivalue answer group: eight of them at most.
//!
//! A word moves the choice only where more than eight sets are considered.
#![tactic(auto)]

mod choice;
mod laws;

pub use choice::{Picked, choose};
pub use laws::eight_at_most;
