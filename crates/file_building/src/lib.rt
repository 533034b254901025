//! The file that a compaction builds: a snapshot and the entries since, copied behind a closed
//! gate, and then opened.
//!
//! A journal over two disks decides when each step comes; here are the bytes, and what a crash
//! leaves of them.
#![tactic(auto)]

mod build;
mod parts;
mod plan;

pub use build::{copy, open_file};
pub use gate_journal::{
    Appended, Disk, Done, Entry, Journal, JournalFault, Look, close_file, fits, look, write_synced,
};
pub use plan::Compaction;
