//! The octets of commands on health checks: one spelling each in a version.
//!
//! The first version says nothing of Disabled: a check of it isn't disabled, and a change in it
//! leaves what a check has.
#![tactic(auto)]

mod spelling;
mod writing;

pub use check_model::{Check, CheckCommand, Children};
pub use octet_reading::{
    Fault, Field, Name, Stop, flag_at, four_at, list_at, octet_at, so_many, two_at,
};
pub use octets::OutOfMemory;
pub use spelling::has_check_spelling;
pub use writing::{write_check, write_check_command};
