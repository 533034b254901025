//! IP-based routing: collections of address blocks by the names of locations, and the choice among
//! the sets of a group by the location of the client's block.
//!
//! Names here have up to 64 bytes, as those of collections have; those of locations are shorter.
#![tactic(auto)]

mod choice;
mod collections;
mod ident;
mod laws;

pub use choice::choose_block;
pub use cidr_commands::{
    Blocks, Changes, CidrChange, CidrCommand, CidrFault, CidrLocation, Collection, Locations,
    OutOfMemory, commands_keep_sound, commands_keep_used, has_names, is_sound, locations_are_names,
    one_listing, only_members_count,
};
pub use collections::Collections;
pub use ident::Ident;
pub use laws::one_location_in;
