//! Rows by prefixes of addresses: the longest one that contains an address, and how far the answer
//! reaches.
//!
//! The scope may be longer than the row that was found: it ends where no longer row can be met any
//! more.
#![tactic(auto)]

mod bits;
mod laws;
mod place;
mod prefix;
mod table;
mod tree;
mod walk;
mod walked;

pub use address_text::{IpAddress, ipv4_of_text, ipv6_of_text, read_ipv4, read_ipv6};
pub use laws::{no_shorter_reaches, one_prefix, one_row_found, scope_reaches};
pub use prefix::IpPrefix;
pub use table::{InsertFault, IpTable};
