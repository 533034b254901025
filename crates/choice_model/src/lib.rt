//! The choice among the sets of a group, by its policy.
//!
//! These are definitions for contracts to cite. Where sets of a group have different policies, that of the
//! first one counts.
#![tactic(auto)]

mod bridges;
mod laws;

pub use bridges::{
    cidr_choice, failover_choice, geolocation_choice, latency_choice, multivalue_choice,
    policies_of_groups, simple_choice, weighted_choice,
};
pub use geo_latency::{Latencies, Location, Tables, choose_place, choose_region};
pub use laws::{chosen_are_of_group, some_is_chosen};
