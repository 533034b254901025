//! The status of a health check from a count: of the checkers that see a pass, or of the children
//! that are healthy.
//!
//! Nine of the fifty checkers are not enough: they are 18 per cent, and not more.
#![tactic(auto)]

mod laws;
mod status;

pub use laws::{inverted_swaps, ten_of_fifty, threshold_ends};
pub use status::{calculated_status, endpoint_status};
