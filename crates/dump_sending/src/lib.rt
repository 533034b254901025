//! All that a configuration holds, written to a sink as the lines of a dump.
//!
//! Health checks come first, then collections, then each zone with its sets behind it: a set names
//! checks and collections of earlier lines. Nothing here takes memory: the lines are passed on
//! through one buffer, and a set piece by piece from its stored octets.
#![tactic(auto)]

mod buffer;
mod checks;
mod collections;
mod dumping;
mod sets;
mod zones;

pub use buffer::ROOM;
pub use dumping::send_dump;
pub use set_sending::{Output, Scratch, ValueText};
