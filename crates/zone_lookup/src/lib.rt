//! What a name is in a zone: below a zone cut, or whose sets are taken for it.
//!
//! A name of which a set has a name below it exists too, without a set of its own: no wildcard
//! answers for it.
#![tactic(auto)]

mod cut;
mod groups;
mod hosting;
mod served;
mod source;
mod standing;

pub use cut::cut_above;
pub use groups::{asked_group, group_of};
pub use hosting::{find_zone, is_held_by, known_few};
pub use policy_select::{
    Group, HealthView, Scratch, Seen, SetRef, Used, Zones, cuts_are_nearest, locates_as_told,
    names_exist, zones_are_longest,
};
pub use served::are_served;
pub use standing::{Found, Standing, find_asked, has_set_at, standing_of};
