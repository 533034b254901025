//! A sound configuration read from a snapshot: its zones in a table, its health checks, and the
//! number that the next zone gets.
//!
//! Zone after zone is read, tried and put into the table, so that at most one of them stands in
//! memory as values. Octets of the grammar are refused too, where what they say isn't sound.
#![tactic(auto)]

mod fronts;
mod making;
mod opening;
mod reading;
mod soundness;
mod zones;

pub use reading::read_config;
pub use snapshot_reading::{SnapshotFault, one_configuration, sound_have_snapshots};
