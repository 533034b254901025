//! Addresses of the Internet Protocol, and their texts, read and written.
//!
//! Many texts spell one IPv6 address, and one of them is written: the groups alone, without a
//! dotted end, also where the address maps an IPv4 address.
#![tactic(auto)]

mod address;
mod groups;
mod laws;
mod pieces;
mod reading;
mod writing;

pub use address::IpAddress;
pub use laws::{
    ipv4_of_text, ipv6_of_text, one_ipv4_of_a_text, one_ipv6_of_a_text, written_ipv4_reads_back,
    written_ipv6_reads_back,
};
pub use reading::{read_ipv4, read_ipv6};
pub use writing::{write_ipv4, write_ipv6};
