//! The client subnet option of EDNS (RFC 7871).
//!
//! A query's option has scope 0. The scope is the server's to say, so it is no part of a `ClientSubnet`.
#![tactic(auto)]

mod laws;
mod reading;
mod subnet;
mod writing;

pub use laws::{one_reading, written_reads_back};
pub use reading::read;
pub use subnet::{ClientSubnet, Malformed};
