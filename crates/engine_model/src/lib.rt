//! What the store of a server is, and what a command, a report, a query and a compaction make of it.
//!
//! These are definitions over plain values: a configuration, all reports since the opening, and the
//! lengths of files. Nothing here knows how they are kept. That memory is wanted or a disk fails is
//! no step: the configuration and the reports are then as they were, and what the disks hold is told
//! by `zone_journal`.
#![tactic(auto)]

mod answers;
mod laws;

pub use answers::{Compacted, Reported};
pub use laws::{one_command_step, one_compaction_step, one_report_step};
