//! Which sets of a group answer a query, and where a chosen alias leads.
//!
//! The sets stay where they are: one at a time is loaded, and no memory is taken.
#![tactic(auto)]

mod client;
mod descent;
mod few;
mod group;
mod leaves;
mod lists;
mod near;
mod parts;
mod places;
mod rules;
mod said;
mod selection;
mod soonest;
mod view;

pub use answer_model::{
    Used, asked_groups, cuts_are_nearest, enclosers_are_closest, locates_as_told, names_exist,
    zones_are_longest,
};
pub use client::Seen;
pub use descent::{descend, descend_held, descend_named, descend_seen, first_answers};
pub use few::{few_by_each_set, groups_are_few};
pub use group::{find_group, load_member, routing_at};
pub use multivalue::Picked;
pub use places::places_of;
pub use selection::{Selected, select};
pub use view::{AllHealthy, HealthView, views_agree};
pub use zone_table::{Delta, Group, Scratch, SetRef, Watch, Zones};
