//! Reading the octets of commands on health checks, in either version.
//!
//! Each kind has its reader; which kind it is stands before it, and is read by the caller.
#![tactic(auto)]

mod fields;
mod laws;
mod reading;

pub use check_octets::{Check, CheckCommand, Children, Fault, Stop};
pub use laws::check_commands_are_read;
pub use reading::{create_check_at, delete_check_at, update_check_at};
