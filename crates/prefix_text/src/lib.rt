//! The texts of prefixes of addresses, as 198.51.100.0/24.
//!
//! The length has no leading zeros, and each bit of the address behind it is 0.
#![tactic(auto)]

mod marks;
mod reading;

pub use ip_table::{InsertFault, IpAddress, IpPrefix, IpTable};
pub use marks::place_of;
pub use reading::{read_address, read_number, read_prefix};
