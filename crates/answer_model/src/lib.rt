//! What an answer is: from a packet, the zones and a view of health to the octets of the reply.
//!
//! These are definitions over lists of sets, for contracts to cite. Nothing here knows how zones
//! and tables are kept.
#![tactic(auto)]

mod laws;
mod used;

pub use choice_model::{
    Latencies, Location, Tables, choose_place, choose_region, chosen_are_of_group,
};
pub use cidr_blocks::locations_are_names;
pub use laws::{
    asked_groups, cuts_are_nearest, enclosers_are_closest, few_choices, locates_as_told,
    names_exist, one_reply, rcodes_of_sections, told_in_collections, zones_are_longest,
};
pub use used::Used;
