//! The types of records and the layouts of their values on the wire.
//!
//! Two tables hold all that is known of a type: its number and text, and the fields of its values
//! with what stands behind them. Names are uncompressed and in lower case here; a reply compresses
//! them as it writes them.
#![tactic(auto)]

mod fields;
mod laws;
mod layout;
mod scan;
mod types;

pub use dns_name::{Name, octets_cmp, one_name_of_a_wire};
pub use fields::{Field, Tail};
pub use laws::{types_have_their_own_number, types_have_their_own_text};
pub use layout::{MOST_OCTETS, fields_of, is_layout, tail_of};
pub use scan::{field_len, is_tag, string_len};
pub use types::RType;
