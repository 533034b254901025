//! The lines of a dump that are written whole: those of health checks, collections and zones.
//!
//! Nothing here takes memory: each line asks for room in the buffer that it is written into.
#![tactic(auto)]

mod collections;
mod dump;

pub use collections::{MOST_OF_COLLECTION, write_collection_line};
pub use dump::{MOST_OF_CHECK, write_check_line, write_zone_line};
