//! A reader and a writer of std as a source and a sink.
//!
//! They tell what the inner stream tells: the octets that it has left, or holds. A stream of the system tells none of
//! them; that a call on it failed is counted all the same, once for each.
#![tactic(auto)]

mod reading;
mod writing;

pub use reading::{Reading, told_read};
pub use writing::{Writing, told_written};
