//! Sets of all zones, each in a slot of its own, kept as octets in cells.
//!
//! A set keeps its slot until it is taken away, also where other octets replace it. Slots and cells
//! are reserved before they are needed, so that putting, replacing and taking want no memory.
#![tactic(auto)]

mod ends;
mod growth;
mod hashes;
mod heads;
mod reads;
mod sameness;
mod siblings;
mod slots;
mod store;
mod tags;
mod typed;

pub use hashes::hash_of;
pub use heads::has_star;
pub use octets::OutOfMemory;
pub use set_scratch::{
    Scratch, Watch, behind_text, cells_for, fields_are_read, fill_set, has_spelling, one_spelling,
    region_at, set_len, sub_at, well_formed,
};
pub use set_search::{
    Body, Name, RType, RecordSet, SetKey, SetList, Stop, before_key, behind_key, closest_in,
    count_before, exists_in, find, find_near, group_in, key_cmp, keys_are_ordered, placed_rise,
};
pub use slots::NO_CELL;
pub use store::SetSlots;
