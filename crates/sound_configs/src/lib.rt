//! What a sound configuration gives to those that answer from it: zones from which queries can be
//! answered, and checks and sets that have health, as an index tells it.
#![tactic(auto)]

mod laws;

pub use config_edits::{Command, Made, Refusal};
pub use engine_model::{Compacted, Reported};
pub use health_index::{HealthIndex, Steps, checks_are_later};
pub use laws::{index_serves, same_are_later, sound_is_served, sound_is_watched};
