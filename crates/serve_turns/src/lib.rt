//! Turns of a server on its network: a datagram is taken, and answered or counted.
//!
//! A packet is answered from the store, or by a reply that was made before to the same packet, where that is the same
//! whoever asks; eight random words are drawn before each, also where nothing is answered. A datagram of the report port is read as a health checker's
//! report, or counted as unknown. Nothing here takes memory.
#![tactic(auto)]

mod counting;
mod drawing;
mod observing;
mod replying;
mod serving;
mod turning;

pub use packet_cache::PacketCache;
pub use r53_core::{Reported, Steps, Store, standing_opens};
pub use serving::{TurnsTaken, serve};
pub use session_model::Compacted;
