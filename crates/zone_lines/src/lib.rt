//! The control lines on hosted zones: CreateHostedZone, DeleteHostedZone and
//! ListResourceRecordSets.
//!
//! A fault of a nested member comes in that member's turn, and rules on several members come last.
#![tactic(auto)]

mod lists;
mod zones;

pub use lists::{ListOfSets, list_sets};
pub use zones::{NewZone, create_hosted_zone, delete_hosted_zone};
