//! Commands on health checks beside the sets that name checks: the first refusal of one, and which
//! sets these are.
//!
//! Nothing is changed here. The table of checks makes a command that isn't refused.
#![tactic(auto)]

mod counting;
mod judging;
mod named;
mod naming;
mod uses;

pub use config_zones::{InputReason, Made, Refusal, commands_keep_sound, empty_is_sound};
pub use judging::judge_checks;
pub use uses::CheckUses;
