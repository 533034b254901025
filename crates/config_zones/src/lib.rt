//! The zones of a configuration: what a table of zones is for it, its zones and sets one after
//! another, and what is counted of them.
//!
//! An edit of the table stands for what a command makes of the configuration; it is told here which
//! edit does so.
#![tactic(auto)]

mod counting;
mod laws;
mod looking;

pub use config_edits::{
    Command, Delta, InputReason, Made, Ready, Refusal, Scratch, SetRefs, Sets, ZoneEdit, Zones,
    commands_keep_sound, edits_are_told, empty_is_sound, new_sets, of_batch, of_check, of_fault,
    one_apex, refusals_are_told, write,
};
pub use counting::{is_over, octets_in};
pub use laws::{counts_agree, zones_are_found, zones_follow};
pub use looking::{check_at, hold_at};
