//! Record sets: what a zone is made of, and the rules that one set meets by itself.
//!
//! A set is named by its name, type and identifier. Its values have an order, in which they are
//! answered, and which two sets that are equal need not share.
#![tactic(auto)]

mod laws;
mod reasons;
mod sameness;
mod sets;
mod values;

pub use laws::{one_first_reason, same_both_ways};
pub use rdata::{
    Name, RData, RType, ValueFault, WireFault, octets_cmp, one_name_of_a_wire, texts_read_as_values,
};
pub use reasons::{Reason, check_set};
pub use routing::{
    Continent, Ident, Place, Region, Role, Routing, Sub, is_location, is_location_byte,
    is_printable, is_region_byte, is_subdivision_byte,
};
pub use sameness::same;
pub use sets::{Body, RecordSet, SetKey, ident_of};
pub use values::Values;
