//! Replies as octets (RFC 1035, 4.1).
//!
//! A reply is written into room that is taken once: after that no call takes memory, and none
//! fails. Records that don't fit make it a reply that is truncated. A pointer goes into the name in the
//! question alone, never to a name in another record.
#![tactic(auto)]

mod data;
mod header;
mod laws;
mod limit;
mod opt;
mod pointers;
mod record;
mod reply;

pub use dns_message::one_judgement;
pub use laws::{one_reading, records_add_up, replies_read};
pub use limit::limit_of;
pub use octets::OutOfMemory;
pub use rdata_layout::RType;
pub use reply::{Reply, Section};
