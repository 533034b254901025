//! The reply to ListResourceRecordSets, written to a sink from stored sets.
//!
//! What stands before the sets says whether the list is cut and where it would go on, so that the
//! places of a page are found before any set is written. Then each set is loaded and passed on in its
//! turn. Nothing here takes memory.
#![tactic(auto)]

mod pages;
mod places;
mod sending;

pub use reply_sending::send_outcome;
pub use sending::send_list;
pub use set_sending::{Output, ROOM, Scratch, ValueText};
