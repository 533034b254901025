//! The fields of record sets, read from octets: numbers that stand for something, letters and
//! texts.
//!
//! A field that is outside the grammar is faulty from its first octet on. A text, and the letters
//! of a country, are so also where octets are missing behind what is wrong with them; a number that
//! is cut off is only cut off.
#![tactic(auto)]

mod alphabets;
mod laws;
mod numbers;
mod texts;

pub use laws::fields_are_read;
pub use numbers::{continent_at, role_at, ttl_at, type_at};
pub use octet_reading::{
    Fault, Field, Name, RType, Stop, base_fields_are_read, flag_at, four_at, list_at, name_at,
    octet_at, one_name_of_a_wire, parts, two_at,
};
pub use set_octets::{
    Body, MOST_OCTETS, Place, RData, Reason, RecordSet, Routing, SetKey, Values, WireFault,
    fill_set, has_spelling, ident_of, set_len,
};
pub use texts::{country_at, ident_at, location_at, region_at, sub_at};
