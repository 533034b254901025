//! Files of the system as the disks of a store and as a source.
//!
//! They tell nothing of what a file holds: what is said is when they fail, and that each failure is counted.
#![tactic(auto)]

mod disk;
mod source;

pub use disk::FileDisk;
pub use source::FileSource;
