//! Commands on collections of CIDR blocks, and what they make of the collections of a config.
//!
//! A list of collections stays as it is; a command makes a new one, which is sound where the old one
//! is.
#![tactic(auto)]

mod command;
mod finding;
mod laws;
mod soundness;
mod steps;

pub use cidr_changes::{
    Blocks, Changes, CidrChange, CidrFault, CidrLocation, Collection, Ident, IpAddress, IpPrefix,
    IpTable, Locations, is_location_byte, locations_are_names, one_listing, one_row_found,
    table_of,
};
pub use command::{CidrCommand, has_names};
pub use finding::{id_after, place_of};
pub use laws::{commands_keep_sound, commands_keep_used, only_members_count};
pub use octets::OutOfMemory;
pub use soundness::is_sound;
pub use steps::carry_out;
