//! The table of health checks: what a command on it is refused for, and what a command makes of it.
//!
//! A command is judged, then the table makes room, then the command is applied, which takes no
//! memory and can't fail. That a record set names a check which is deleted is asked above.
#![tactic(auto)]

mod children;
mod finding;
mod judging;
mod nesting;
mod soundness;
mod steps;
mod table;

pub use check_model::{Check, CheckCommand, CheckRefusal, Children, is_bounded, is_check_bounded};
pub use octets::OutOfMemory;
pub use soundness::is_sound;
pub use table::CheckTable;
