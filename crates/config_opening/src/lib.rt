//! A store is opened: the snapshot of the file that decides, and then the commands of its entries,
//! one after another, up to the closed gate.
//!
//! Both files are synced before either is looked at, and nothing is written: what is read is what
//! every crash leaves.
#![tactic(auto)]

mod opening;
mod replaying;

pub use config_journal::{ConfigJournal, standing_opens};
pub use opening::open;
pub use zone_journal::{OpenFault, Side};
