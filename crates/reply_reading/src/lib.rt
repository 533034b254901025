//! A reply is JSON that is read back as what it tells.
//!
//! The laws are contracts of functions that do nothing. They ask that the numbers of an outcome
//! have 64 bits, as those of its types have.
#![tactic(auto)]

mod laws;

pub use laws::{one_reply, replies_read_back};
