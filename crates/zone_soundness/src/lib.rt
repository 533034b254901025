//! Whether the sets of a zone are those of a sound configuration, rule by rule: the test that sets
//! want which were read from a snapshot.
//!
//! It looks at lists alone, and changes nothing. A zone's number is asked above.
#![tactic(auto)]

mod apexes;
mod judging;
mod naming;
mod placing;
mod setting;
mod together;

pub use apexes::is_zone_name;
pub use judging::is_sound_zone;
