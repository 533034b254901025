//! What the server asks of the outside: a source of bytes, a sink for them and a link to the network, each of them in memory
//! too.
//!
//! Each object counts its faults. A call answers Failed only where that count rose in it.
#![tactic(auto)]

mod laws;
mod list_source;
mod network;
mod script_link;
mod streams;
mod vec_sink;

pub use address_text::IpAddress;
pub use laws::{one_arrival, one_script};
pub use list_source::ListSource;
pub use network::{Arrival, Bound, Link, MAX_DATAGRAM, Peer, Sent};
pub use octets::OutOfMemory;
pub use script_link::{ScriptLink, Scripted};
pub use streams::{Got, Sink, Source};
pub use vec_sink::VecSink;
