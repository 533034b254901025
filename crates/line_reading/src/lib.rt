//! The objects of control lines: which members they have, and of which kinds these are.
//!
//! A line is one JSON value, as `serde_json` reads it. Each object is read in one order: its
//! unsupported members, its unknown members, then its members in turn; the first fault is the
//! answer. A member of any value is named and not read.
#![tactic(auto)]

mod kinds;
mod reading;

pub use kinds::{
    check_id, collection_id, flag, list, name, number, number_u8, number_u16, number_u32,
    one_of_texts, optional_flag, optional_u8, optional_u16, optional_u32, optional_word,
    required_word, text, without_prefix, zone_id, zone_number,
};
pub use line_faults::{LineFault, LineReason, Member};
pub use reading::{each, object, optional, optional_owned, required};
