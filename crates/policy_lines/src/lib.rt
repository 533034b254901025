//! The members of a record set that say its routing policy: SetIdentifier, Weight, Failover,
//! GeoLocation, Region, MultiValueAnswer and CidrRoutingConfig.
//!
//! They are read in their turn, and the rules on several of them are told later, once the set's
//! other members were read.
#![tactic(auto)]

mod places;
mod policies;

pub use line_words::record_type;
pub use policies::{Policies, policy_members, routing_of};
