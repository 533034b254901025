//! Routing policies: what tells the sets of one name and type apart, and how one of them is chosen.
//!
//! Each set of a policy has an identifier; a simple set has none.
#![tactic(auto)]

mod alphabet;
mod locations;
mod policies;
mod texts;

pub use alphabet::{
    is_location_byte, is_location_text, is_printable, is_region_byte, is_subdivision_byte,
};
pub use locations::is_location;
pub use policies::{Continent, Place, Role, Routing};
pub use texts::{Ident, Region, Sub};
