//! Pieces of JSON texts, appended to a buffer that has room for them (RFC 8259).
//!
//! Nothing here takes memory: the buffer's room is taken before, and it never shrinks.
#![tactic(auto)]

mod pieces;
mod quoting;

pub use pieces::{put, put_flag, put_hex, put_number};
pub use quoting::put_quoted;
