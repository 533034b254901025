//! Where the aliases of a zone lead after a change that isn't made yet: the first that would lead
//! to no set, and the first set from which they would lead on too far.
//!
//! Where a change adds no alias and empties no group nothing of this can come about; nor where it empties none, each alias
//! that it adds leads to sets that are none, and no walk came to an end at its own group.
#![tactic(auto)]

mod aliases;
mod ending;
mod groups;
mod keys;
mod laws;
mod links;
mod missing;
mod places;
mod walks;

pub use ending::all_end_walks;
pub use groups::empties_group;
pub use keys::adds_alias;
pub use laws::{aliases_come, aliases_stay};
pub use links::links_of;
pub use missing::{all_lead, missing_after};
pub use octets::OutOfMemory;
pub use walks::walk_after;
