//! Reading the octets of commands on collections of CIDR blocks.
//!
//! Each kind has its reader; which kind it is stands before it, and is read by the caller. The
//! parts that other octets have too, names and blocks, can be read by themselves. Where a bit
//! behind a block's length is set, it is the length that is faulty.
#![tactic(auto)]

mod blocks;
mod laws;
mod names;
mod reading;

pub use block_octets::{Blocks, Changes, CidrChange, CidrCommand, Fault, Ident, IpPrefix, Stop};
pub use blocks::OneBlock;
pub use laws::cidr_commands_are_read;
pub use names::{location_at, name_at};
pub use reading::{change_collection_at, create_collection_at, delete_collection_at};
