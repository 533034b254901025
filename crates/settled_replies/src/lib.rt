//! Replies that are the same whoever asks, but for the ID: those of a name by one set, of a name with neither a set of
//! the type nor a CNAME set, of one that doesn't exist, and referrals.
//!
//! Whoever keeps such a reply needn't make it again, as long as the zones and the tables stay and no
//! set becomes healthy or unhealthy.
#![tactic(auto)]

mod alone;
mod findings;
mod settling;

pub use query_engine::{HealthView, Scratch, Zones};
pub use settling::settle;
