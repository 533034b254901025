//! A journal on one disk: entries that a crash leaves whole or not at all.
//!
//! An entry is on the disk behind a closed gate before that gate is opened, by a write of its own.
#![tactic(auto)]

mod answers;
mod closing;
mod entry;
mod header;
mod journal;
mod laws;
mod read;

pub use answers::{Appended, JournalFault, Look};
pub use closing::close_file;
pub use entry::{Entry, fits};
pub use header::look;
pub use journal::Journal;
pub use laws::{opens_to_one, read_to_one};
pub use octets::OutOfMemory;
pub use r53_disk::{Disk, Done, write_synced};
