//! What a server does with a line of octets: the line is read, what it asks for is done, and its reply
//! is written.
//!
//! A server has all its memory from its first line on, but for what reading a line, a command and the
//! beginning of a compaction take.
#![tactic(auto)]

mod asking;
mod buffers;
mod laws;
mod server;

pub use laws::read_lines_ask;
pub use line_server::{Store, Taken, standing_opens};
pub use server::Server;
