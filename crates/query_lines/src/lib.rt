//! The control lines that ask, serve and compact: Query, Bind, Serve and Compact.
//!
//! The packet of a Query may be of any octets: whether it is a query is not judged here.
#![tactic(auto)]

mod packets;
mod queries;
mod serving;

pub use packets::Packet;
pub use queries::{QueryLine, query};
pub use serving::{Ports, bind, compact, serve};
