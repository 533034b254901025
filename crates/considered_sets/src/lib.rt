//! Which sets of a group are considered for an answer: the healthy ones, or all of them where none
//! is healthy.
//!
//! So a group that has a set has one that is considered.
#![tactic(auto)]

mod health;
mod laws;

pub use health::some_healthy;
pub use laws::{places_are_considered, some_is_considered};
