//! Where the aliases of a zone lead: the first that leads to no set, and the first set from which
//! they lead on too far.
//!
//! A walk that comes back to a set goes on for as long as one likes, so a limit on the links
//! refuses cycles too.
#![tactic(auto)]

mod first;
mod laws;
mod listed;
mod missing;
mod rounds;
mod targets;
mod walks;

pub use laws::{first_places_are_one, walks_begin, walks_go_on};
pub use missing::missing_target;
pub use walks::walk_of_17;
