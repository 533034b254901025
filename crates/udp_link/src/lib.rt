//! Two sockets of the system as a link to the network.
//!
//! It tells nothing of what comes or was sent: what is said is when it fails, and that each failure is counted.
#![tactic(auto)]

mod link;
mod peers;
mod sockets;

pub use link::UdpLink;
