//! The octets of commands, as the journal keeps them: one spelling each in a version.
//!
//! Numbers have their highest octet first. No spelling begins another. The first version says
//! nothing of Disabled, and has no commands on collections.
#![tactic(auto)]

mod commands;
mod spelling;
mod writing;

pub use batch_model::{
    Action, Batch, BatchRefusal, Change, Changes, key_cmp, keys_are_ordered, one_batch_outcome,
    zones_stay,
};
pub use block_octets::{
    CidrCommand, CidrFault, Ident, commands_keep_sound, commands_keep_used, has_cidr_spelling,
    write_blocks, write_name,
};
pub use check_octets::{CheckCommand, has_check_spelling};
pub use commands::Command;
pub use octets::OutOfMemory;
pub use spelling::has_spelling;
pub use writing::write;
