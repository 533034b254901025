//! Valves over valves: a valve is open where enough of those that feed it are. Values are kept, so
//! that a change costs what stands above it.
//!
//! What stands above a change is listed depth first, and worked out once, feeders first. No order
//! is kept: it is made when it is needed.
#![tactic(auto)]

mod blueprint;
mod cone;
mod feeding;
mod laws;
mod laying;
mod room;
mod sharing;
mod steps;
mod unfeeding;
mod valves;
mod writes;

pub use blueprint::{Blueprint, Feeding, Trigger};
pub use laws::ranks_end_paths;
pub use room::make_room;
pub use steps::Steps;
pub use valves::Valves;
