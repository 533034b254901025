//! What is known of commands: one that was read from octets is within its bounds, and one that a
//! sound configuration accepts can be written, and isn't too long for an entry of a journal.
#![tactic(auto)]

mod laws;

pub use config_model::Command;
pub use laws::{accepted_are_short, accepted_have_spelling, spelled_are_bounded};
