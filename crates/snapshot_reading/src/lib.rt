//! A snapshot read part by part: what stands in front of its zones, and then zone after zone, so
//! that not all of a store stands in memory as values at once.
//!
//! The caller knows how many zones follow, and that nothing may stand behind the last one.
#![tactic(auto)]

mod checks;
mod collections;
mod faults;
mod fronts;
mod laws;
mod places;
mod zones;

pub use faults::SnapshotFault;
pub use fronts::{Front, read_front};
pub use laws::snapshots_read_in_parts;
pub use snapshot_octets::{
    one_configuration, snapshots_are_told, snapshots_read_back, sound_have_snapshots,
};
pub use zones::{FoundZone, read_zone};
