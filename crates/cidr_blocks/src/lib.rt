//! Collections of CIDR blocks under the names of locations (IP-based routing).
//!
//! A block stands under one location at most. Nothing here knows of the sets that name locations.
#![tactic(auto)]

mod ident;
mod judging;
mod laws;
mod lists;
mod order;
mod places;
mod tables;

pub use ident::Ident;
pub use ip_table::{IpAddress, IpPrefix, IpTable, one_row_found};
pub use judging::is_collection;
pub use laws::{locations_are_names, one_listing, one_order};
pub use lists::{Blocks, Locations};
pub use octets::OutOfMemory;
pub use order::{Block, is_block, name_order};
pub use places::{CidrLocation, Collection};
pub use routing::is_location_byte;
pub use tables::table_of;
