//! The choice among the sets of a failover group.
//!
//! Where neither set is healthy the primary answers, and not the secondary.
#![tactic(auto)]

mod choice;

pub use choice::choose;
