//! Health checks of a configuration, commands on them, and by which rules a command is made or
//! refused.
//!
//! The rules are definitions over plain lists, for contracts to cite; what runs here only holds
//! checks, commands and refusals.
#![tactic(auto)]

mod bounds;
mod checks;
mod laws;
mod refusals;

pub use bounds::{is_bounded, is_check_bounded};
pub use checks::{Check, CheckCommand, Children};
pub use laws::{
    commands_keep_sound, no_checks_are_sound, refusals_are_told, rest_is_left, walks_are_told,
};
pub use refusals::CheckRefusal;
