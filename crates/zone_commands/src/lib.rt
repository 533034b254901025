//! Commands by which hosted zones come and go: the edit of the zones that one makes, or why it is
//! refused.
//!
//! Nothing is changed here. What is told is right for the zones as they are.
#![tactic(auto)]

mod closing;
mod opening;

pub use closing::delete_zone;
pub use config_zones::{Command, Delta, Ready, Scratch, SetRefs, ZoneEdit, Zones, write};
pub use opening::create_zone;
