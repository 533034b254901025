//! The sets of one zone in its order, as slots of a store that all zones share: put, replaced,
//! taken away and looked at.
//!
//! Each call changes the sets of one zone, and those of all other zones stay in their slots.
#![tactic(auto)]

mod changes;
mod views;

pub use changes::{make_room, put_at, replace_at, take_at};
pub use set_store::{
    Body, NO_CELL, Name, RType, RecordSet, Scratch, SetKey, SetList, SetSlots, Stop, Watch,
    before_key, behind_key, behind_text, cells_for, closest_in, count_before, exists_in,
    fields_are_read, fill_set, find, find_near, group_in, has_spelling, has_star, hash_of, key_cmp,
    keys_are_ordered, one_spelling, region_at, set_len, sub_at, well_formed,
};
pub use views::{ZoneSets, of_zone, sets_in_order, sets_near};
