//! The octets of commands on collections of CIDR blocks: one spelling each.
//!
//! The first version of the octets of commands has none of them.
#![tactic(auto)]

mod spelling;
mod writing;

pub use cidr_commands::{
    Blocks, Changes, CidrChange, CidrCommand, CidrFault, Ident, IpAddress, IpPrefix,
    commands_keep_sound, commands_keep_used, is_location_byte,
};
pub use octet_reading::{Alphabet, Fault, Field, Stop, four_at, list_at, octet_at, text_at};
pub use octets::OutOfMemory;
pub use spelling::has_cidr_spelling;
pub use writing::{write_blocks, write_cidr_command, write_name};
