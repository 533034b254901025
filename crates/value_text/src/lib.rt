//! The fields of a value's text, and the numbers and strings among them (RFC 1035, 5.1).
//!
//! A field that begins with a quote ends with its closing quote, so that `"a""b"` is two fields.
#![tactic(auto)]

mod fields;
mod laws;
mod numbers;
mod strings;

pub use fields::{Field, next_field};
pub use laws::{
    fields_go_on, no_field_in_blanks, string_is_one_field, written_number_reads_back,
    written_string_reads_back,
};
pub use numbers::number;
pub use strings::{read_string, write_string};
