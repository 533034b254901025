//! What scenarios are written in: queries in words and their packets, replies to packets in words, and
//! lines of many parts.
#![tactic(auto)]

mod asked;
mod asking;
mod control;
mod fault;
mod lines;
mod names;
mod packets;
mod telling;
mod values;

pub use asked::{Asked, read_asked};
pub use asking::{Opt, Query, read_query};
pub use control::{put_hex, query_line, read_hex, reply_packet};
pub use fault::Fault;
pub use lines::{joined, line_feeds, parted, put_number, whole_len};
pub use packets::packet_of;
pub use telling::told_of;
