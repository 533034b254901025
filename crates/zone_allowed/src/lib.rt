//! Whether an edit of zones is allowed: the test for all that an edit has to meet.
#![tactic(auto)]

mod allowed;
mod apart;
mod there;

pub use allowed::{is_allowed, is_change_allowed, is_new_zone};
