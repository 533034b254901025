//! Sets found by their keys, in lists that are in zone order.
//!
//! A search stops at a bound between two sets: how many sets stand before it is the place of the
//! first one behind.
#![tactic(auto)]

mod bounds;
mod groups;
mod lists;
mod names;
mod order;
mod searching;

pub use bounds::{Bound, Stop, before_key, behind_key};
pub use groups::group_in;
pub use lists::{SetList, type_under};
pub use names::{closest_in, exists_in};
pub use order::set_is_before;
pub use searching::{count_before, find, find_near};
pub use zone_model::{
    Body, Ident, Name, RType, RecordSet, SetKey, key_cmp, keys_are_ordered, octets_cmp,
    one_name_of_a_wire, placed_rise, same,
};
