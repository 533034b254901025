//! One file of a store: what a read of it gives, and what a crash may leave of it.
//!
//! Until a sync that succeeds, what was written or tried may hold any bytes after a crash.
#![tactic(auto)]

mod disk;
mod memory;
mod record;
mod synced;

pub use disk::{Disk, Done, Size};
pub use memory::{MemoryDisk, Torn};
pub use octets::OutOfMemory;
pub use synced::write_synced;
