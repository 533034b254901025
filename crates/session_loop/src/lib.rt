//! The lines of an input, one after another, each taken by a server, up to the input's end or to the
//! first fault.
//!
//! What was written and sent, and what the files open to, is that of a session over the lines.
#![tactic(auto)]

mod ended;
mod looping;
mod turning;

pub use ended::Ended;
pub use line_splitting::{LineReader, fresh_reader};
pub use looping::take_lines;
pub use session_server::{Server, Store};
