//! The rules of the first version, as definitions, and that what they accept is accepted as before:
//! a configuration that they led to is the base of a store still.
#![tactic(auto)]

mod laws;

pub use laws::{empty_is_former, former_stores_open, former_version_stays};
