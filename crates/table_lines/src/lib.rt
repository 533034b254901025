//! The tables of places and latencies, read from a source that gives them in pieces of any size.
//!
//! The first line that breaks a rule ends the reading, and is told by its number. A line is told as
//! bad as soon as 4,097 octets of it were read, whether or not its end is there.
#![tactic(auto)]

mod buffer;
mod laws;
mod reading;
mod waiting;

pub use laws::{one_outcome, too_long_input, whole_input};
pub use reading::{TablesFault, read_tables};
