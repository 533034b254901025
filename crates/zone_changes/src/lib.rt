//! Single sets that come into a zone and go from it, by their keys.
//!
//! A set that comes takes the place and the slot of the one with its key, where there is one.
#![tactic(auto)]

mod single;
mod sums;

pub use single::{come, go};
pub use sums::{Sums, no_sums};
pub use zone_order::{
    NO_CELL, Name, RType, RecordSet, Scratch, SetKey, SetList, SetSlots, Stop, Watch, ZoneSets,
    before_key, behind_key, behind_text, cells_for, closest_in, count_before, exists_in,
    fields_are_read, find, group_in, has_spelling, hash_of, key_cmp, keys_are_ordered, make_room,
    of_zone, region_at, set_len, sets_in_order, sets_near, sub_at, take_at,
};
