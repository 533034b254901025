//! Reading the octets of record sets, from left to right, with the place of the first fault.
//!
//! A fault is counted from the end while the fields are read, and told as a place. A set that is
//! too long is told as such behind its last field, so that a fault within it comes first.
#![tactic(auto)]

mod faults;
mod laws;
mod reading;
mod sets;

pub use faults::ReadFault;
pub use laws::{one_spelling, parts_are_read, sets_are_told, written_reads_back};
pub use reading::{check_at, read_set, routing_at};
pub use set_fields::{
    Body, Fault, Field, MOST_OCTETS, Name, RData, RType, Reason, RecordSet, Routing, SetKey, Stop,
    Values, WireFault, base_fields_are_read, fields_are_read, fill_set, flag_at, four_at,
    has_spelling, ident_of, list_at, name_at, octet_at, one_name_of_a_wire, parts, region_at,
    set_len, sub_at, two_at, type_at,
};
pub use sets::well_formed;
