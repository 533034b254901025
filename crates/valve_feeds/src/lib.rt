//! Which valves feed which: a feed comes and goes at once and without memory, and is found from
//! both of its valves.
//!
//! A valve can feed another one more than once. The feed that came last stands first.
#![tactic(auto)]

mod feeds;
mod joining;
mod laws;
mod walk;

pub use feeds::FeedLists;
pub use laws::one_feed_fewer;
pub use octets::OutOfMemory;
pub use walk::{FedWalk, FeedersWalk};
