//! The octets of record sets, as commands and snapshots hold them: one spelling each.
//!
//! Numbers have their highest octet first. No spelling begins another, so sets stand one behind
//! another.
#![tactic(auto)]

mod filling;
mod lengths;
mod spelling;
mod writing;

pub use filling::fill_set;
pub use lengths::{MOST_OCTETS, head_len, is_long, set_len};
pub use octets::OutOfMemory;
pub use record_set::{
    Body, Continent, Ident, Place, RData, RType, Reason, RecordSet, Region, Role, Routing, SetKey,
    Sub, ValueFault, Values, WireFault, check_set, ident_of, is_location_byte, is_printable,
    is_region_byte, is_subdivision_byte, texts_read_as_values,
};
pub use spelling::has_spelling;
pub use writing::write_set;
