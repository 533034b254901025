//! The lines of a drill, made from their numbers: the store that it begins with, and its events.
//!
//! A line has no line feed at its end. A buffer of 16,384 octets has room for each of them; what it holds
//! behind a line doesn't matter.
#![tactic(auto)]

mod changes;
mod events;
mod lines;
mod pieces;
mod queries;

pub use lines::{SETUP_LINES, compaction_line, event_line, setup_line};
