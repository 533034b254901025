//! The parts of a set found among its octets: where each stands, by what is passed over in front of
//! it.
//!
//! Octets that begin with no set are passed over too, to somewhere: each call says what it finds in
//! the octets of a set, and takes any others.
#![tactic(auto)]

mod heads;
mod laws;
mod passing;

pub use heads::{
    KeyFront, body_of, head_of, ident_in_front, name_and_rest, policy_of, type_and_rest,
};
pub use laws::keys_are_in_front;
pub use passing::{behind_check, behind_name, behind_place, behind_policy, behind_text, past};
pub use set_reading::{
    MOST_OCTETS, Name, RType, ReadFault, RecordSet, Routing, SetKey, base_fields_are_read,
    check_at, fields_are_read, fill_set, flag_at, has_spelling, ident_of, name_at, one_spelling,
    parts, parts_are_read, read_set, region_at, routing_at, set_len, sub_at, two_at, well_formed,
    written_reads_back,
};
