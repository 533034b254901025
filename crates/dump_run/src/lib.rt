//! What a store holds, written as the lines of a dump.
//!
//! The disks are opened as at a start: both are synced, and nothing is written to them. The sink is
//! asked for nothing before the store is open and all memory is taken.
#![tactic(auto)]

mod answers;
mod writing;

pub use answers::Dumped;
pub use store_model::init_opens;
pub use writing::dump_store;
pub use zone_journal::Side;
