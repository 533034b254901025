//! Values of records: read from texts and octets, and written as both (RFC 1035, 3.3 and 5.1).
//!
//! A value is kept as its octets, with names uncompressed and in lower case: values are equal where
//! these are.
#![tactic(auto)]

mod faults;
mod laws;
mod reading;
mod value;
mod writing;

pub use faults::{ValueFault, WireFault};
pub use field_text::{Name, RType, octets_cmp, one_name_of_a_wire};
pub use laws::{
    one_reading, texts_read_as_values, value_of_text, wire_reads_back, written_text_reads_back,
};
pub use octets::OutOfMemory;
pub use value::RData;
pub use writing::write_text;
