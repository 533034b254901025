//! Reply lines of bounded length, written into a buffer that has room for them.
//!
//! Nothing here takes memory: a reply is one call, and asks for the room of any reply.
#![tactic(auto)]

mod errors;
mod outcomes;
mod refusals;

pub use outcomes::{MOST_REPLY, write_answer, write_outcome, write_silence};
pub use reply_words::{Command, Made, Outcome, Refusal, one_outcome};
