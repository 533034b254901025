//! A reader of one record set at a time, which takes no memory once it is made.
//!
//! The octets of a set are all that is held of it, and each reader finds its part among them. They
//! are copied: the set stays when what was given is gone.
#![tactic(auto)]

mod parts;
mod places;
mod scratch;
mod telling;

pub use octet_region::{Handle, Region, cells_for};
pub use octets::OutOfMemory;
pub use scratch::Scratch;
pub use set_parts::{
    ReadFault, base_fields_are_read, behind_text, fields_are_read, fill_set, has_spelling,
    ident_in_front, keys_are_in_front, name_and_rest, name_at, one_spelling, read_set, region_at,
    set_len, sub_at, type_and_rest, well_formed, written_reads_back,
};
pub use telling::{Watch, is_alias_in, target_in, watch_in};
