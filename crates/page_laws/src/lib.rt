//! A list that starts somewhere in a zone starts at a place of its sets in zone order: the sets before
//! the start stand before all others.
//!
//! What a start doesn't give is the least there is, so that a start is a key, found as any other.
#![tactic(auto)]

mod laws;

pub use laws::{pages_follow, starts_are_places};
pub use reply_model::Outcome;
