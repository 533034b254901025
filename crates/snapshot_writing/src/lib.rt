//! A configuration written as a snapshot, from what is stored: the octets of sets are copied and
//! never read as values.
#![tactic(auto)]

mod collections;
mod numbers;
mod writing;
mod zones;

pub use writing::write_snapshot;
