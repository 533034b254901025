//! The lines of an input, as they come from a source in pieces of any size.
//!
//! A blank line is no line, however long it is. A line of more than 1,048,576 bytes is told
//! without its bytes, once its end is read. The source is read only where no whole line waits,
//! and the buffer is taken once.
#![tactic(auto)]

mod judging;
mod laws;
mod reader;
mod window;

pub use judging::Dropped;
pub use laws::{fresh_reader, one_outcome};
pub use reader::{LineReader, Next};
