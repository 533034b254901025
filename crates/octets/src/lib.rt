//! Octets in slices, numbers in network order, and want of memory: what every layer shares.
//!
//! A number of several octets has its highest octet first (RFC 1035, 2.3.2).
#![tactic(auto)]

mod memory;
mod numbers;
mod places;

pub use memory::{OutOfMemory, append, zeros};
pub use numbers::{four_octets, long_at, number_at, octal_at, two_octets};
pub use places::{behind, fill_front, front, put_at};
