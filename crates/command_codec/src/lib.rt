//! The octets of commands, written and read.
//!
//! Nothing may stand behind a command, though no spelling begins another. Writing them has its own
//! crate below.
#![tactic(auto)]

mod laws;
mod parts;
mod reading;

pub use command_octets::{
    Action, Batch, Change, Changes, CheckCommand, CidrCommand, Command, OutOfMemory, has_spelling,
    write,
};
pub use laws::{commands_are_told, one_spelling, read_as_nothing_else, written_reads_back};
pub use parts::well_formed;
pub use reading::read;
pub use set_reading::ReadFault;
