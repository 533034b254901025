//! Where the first fault of the octets of a snapshot stands, by what they could go on to.
//!
//! The crates below read octets field by field, and there a fault is where that reading stops. The
//! laws here say it of whole configurations and of their fields. There is no code.
#![tactic(auto)]

mod laws;

pub use laws::{
    faults_stand_first, no_field_is_empty, one_fault_of_snapshots, snapshot_faults_as_told,
    snapshots_are_fields,
};
