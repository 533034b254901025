//! The configuration of a server: its hosted zones with their sets, its health checks and its
//! collections, changed by commands.
//!
//! A command is prepared first, which judges it and takes all its memory, and then installed, which
//! can't fail. In between nothing has changed, so that it can be written down. A snapshot of the
//! whole is read as the configuration that was written.
#![tactic(auto)]

mod config;
mod editing;
mod installing;
mod prepared;
mod snapshots;

pub use check_commands::{InputReason, Made, Refusal};
pub use config::Config;
pub use config_reading::{SnapshotFault, read_config};
pub use octets::OutOfMemory;
pub use prepared::Prepared;
pub use snapshot_writing::write_snapshot;
pub use zone_commands::{Command, write};
