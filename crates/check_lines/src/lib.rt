//! The control lines on health checks: CreateHealthCheck, UpdateHealthCheck, DeleteHealthCheck,
//! GetHealthCheckStatus and Observe.
//!
//! Of the settings of an endpoint r53 keeps the failure threshold alone: who observes it knows the
//! others, so these may be of any value.
#![tactic(auto)]

mod creating;
mod ids;
mod observing;
mod types;
mod updating;

pub use creating::{NewCheck, create_health_check};
pub use ids::Ids;
pub use observing::{Observation, delete_health_check, get_health_check_status, observe};
pub use updating::{CheckUpdate, update_health_check};
