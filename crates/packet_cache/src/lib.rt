//! Replies that are kept by the packets to which they were made, but for the ID.
//!
//! Whoever keeps a reply here knows that it answers every packet with these octets behind the ID. Which replies are
//! kept, and for how long, no contract says: a packet may come to places that others take.
#![tactic(auto)]

mod cache;
mod keys;
mod places;

pub use cache::PacketCache;
pub use keys::key_of;
pub use octets::OutOfMemory;
