//! What commands on hosted zones make of the zones of a server: the sets of a new zone, and what
//! an edit of the zones is for a configuration.
#![tactic(auto)]

mod laws;
mod opening;

pub use config_model::{
    Command, InputReason, Made, RecordSet, Refusal, commands_keep_sound, empty_is_sound, of_batch,
    of_check, of_fault, refusals_are_told, set_len, write,
};
pub use laws::edits_are_told;
pub use octets::OutOfMemory;
pub use opening::new_sets;
pub use zone_table::{Delta, Ready, Scratch, SetRefs, Sets, ZoneEdit, Zones, one_apex};
