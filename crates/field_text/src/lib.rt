//! The texts of single fields of records' values, read and written.
//!
//! Many texts spell one field, as numbers with leading zeros and names in upper case do, and one of
//! them is written. The written text of a field has no spaces in it, so that fields may stand one
//! behind another.
#![tactic(auto)]

mod laws;
mod reading;
mod writing;

pub use laws::{
    octets_of_text, one_reading, spelled_is_field, written_field_is_one_field,
    written_field_reads_back,
};
pub use rdata_layout::{
    Field, Name, RType, Tail, field_len, fields_of, is_layout, octets_cmp, one_name_of_a_wire,
    tail_of,
};
pub use reading::read_field;
pub use value_text::{
    fields_go_on, next_field, read_string, string_is_one_field, write_string,
    written_string_reads_back,
};
pub use writing::write_field;
