//! Configurations: the hosted zones, health checks and collections of a server, when they are
//! sound, and what each command makes of them.
//!
//! These are definitions over plain lists, for contracts to cite; what runs here only tells
//! refusals.
#![tactic(auto)]

mod laws;
mod refusals;

pub use command_octets::{Command, key_cmp, keys_are_ordered, write, write_blocks, write_name};
pub use laws::{commands_keep_sound, empty_is_sound, one_outcome, refusals_are_told};
pub use refusals::{InputReason, Made, Refusal, of_batch, of_check, of_fault};
pub use set_reading::{
    Body, RData, RType, ReadFault, RecordSet, Routing, Values, WireFault, has_spelling, read_set,
    set_len, sets_are_told, well_formed, written_reads_back,
};
