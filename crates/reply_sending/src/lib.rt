//! Reply lines of bounded length, written to a sink.
//!
//! A line is written into a buffer first, and then as one piece. Nothing here takes memory.
#![tactic(auto)]

mod sending;

pub use reply_writing::{Command, Made, Outcome, Refusal, one_outcome};
pub use sending::{ROOM, send_answer, send_outcome, send_silence};
pub use whole_writing::Output;
