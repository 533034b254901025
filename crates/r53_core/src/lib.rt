//! The store of a server over two disks: it is opened, and then has a call for a command, a report, a
//! query and some pieces of a compaction.
//!
//! Nobody keeps a list of the reports: an index has the health of each check and set. That what is
//! told is the recursion over all reports is a clause of each call that tells it.
#![tactic(auto)]

mod store;

pub use config_opening::standing_opens;
pub use sound_configs::{Command, Compacted, Made, Refusal, Reported, Steps};
pub use store::Store;
pub use zone_journal::OpenFault;
