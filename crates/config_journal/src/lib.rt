//! A configuration and the journal that keeps it: a command is written down before it is made, so
//! that at every moment the two files open to the configuration, or to the one that the command in
//! hand makes.
//!
//! A command is made ready first, with all its memory, and then committed. In between nothing has
//! changed, so that an index above can make room.
#![tactic(auto)]

mod compacting;
mod journaled;
mod ready;

pub use engine_model::Compacted;
pub use journaled::ConfigJournal;
pub use r53_state::{Command, Config, Made, Refusal, SnapshotFault, read_config};
pub use ready::ReadyCommand;
pub use store_model::{
    ReadFault, baseless_is_no_store, broken_is_no_store, deciding_opens, faulty_is_no_store,
    one_more_makes, read, refused_are_refused, spelled_are_bounded, standing_opens,
    unread_are_refused,
};
