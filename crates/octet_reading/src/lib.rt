//! Reading octets from left to right: numbers, flags and names, and where the first fault stands.
//!
//! A fault is counted from the end: it says how many octets stand from its place on. So a reader
//! looks only at what is left, and a field that is cut off has the fault 0, which is the place
//! behind the last octet.
//!
//! Readers are built from readers: a `Field` gives its lists and its optional parts, and the rules
//! beside them say what such a reader reads.
#![tactic(auto)]

mod laws;
mod lists;
mod names;
mod numbers;
mod stop;
mod text;

pub use laws::{base_fields_are_read, layouts_are_told, names_are_told};
pub use lists::{Field, list_at, so_many};
pub use names::name_at;
pub use numbers::{flag_at, four_at, octet_at, parts, two_at};
pub use rdata_layout::{Name, RType, one_name_of_a_wire};
pub use stop::{Fault, Stop};
pub use text::{Alphabet, text_at};
