//! Texts of control lines that stand for something: types of records, identifiers, regions,
//! continents, locations.
//!
//! A type that Route 53 has and r53 does not is told as unsupported, with the member Type.
#![tactic(auto)]

mod words;

pub use words::{
    continent_of_text, ident_of_text, location_of_text, record_type, region_of_text, role_of_text,
    subdivision_of_text,
};
