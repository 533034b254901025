//! Changes of a collection of CIDR blocks: blocks that are put under locations and taken from them.
//!
//! Changes are carried out all together or not at all. A collection keeps a block of each location
//! that a record set names.
#![tactic(auto)]

mod changes;
mod changing;
mod faults;
mod gathering;
mod laws;
mod rows;

pub use changes::{Changes, CidrChange};
pub use changing::change_collection;
pub use cidr_blocks::{
    Blocks, CidrLocation, Collection, Ident, IpAddress, IpPrefix, IpTable, Locations,
    is_collection, is_location_byte, locations_are_names, one_listing, one_row_found, table_of,
};
pub use faults::CidrFault;
pub use laws::{
    blocks_are_gathered, changes_are_told, changes_keep_collections, changes_keep_placed,
    only_named_count,
};
