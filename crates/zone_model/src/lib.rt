//! The sets of a zone as a list in zone order: groups, names that exist, and where aliases lead.
//!
//! These are definitions over plain lists, for contracts to cite; what runs here is the order of keys alone.
#![tactic(auto)]

mod laws;
mod order;

pub use laws::{keys_are_ordered, placed_rise};
pub use order::{ident_cmp, key_cmp};
pub use record_set::{
    Body, Ident, Name, RType, Reason, RecordSet, Routing, SetKey, ident_of, octets_cmp,
    one_name_of_a_wire, same,
};
