//! The reply to a packet, from the zones, a view of health, and tables of places and latencies.
//!
//! Every reply is made in room that is taken before: no call takes memory, for any packet.
#![tactic(auto)]

mod asking;
mod client;
mod ends;
mod replies;
mod steps;

pub use client::{client_address, told_scope};
pub use replies::answer;
pub use zone_lookup::{HealthView, Scratch, SetRef, Zones};
