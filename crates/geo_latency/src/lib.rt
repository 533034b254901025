//! The choice among the sets of a group by where the client is: by its place, or by the latency of
//! regions.
//!
//! A larger place answers where the set of a smaller one is not healthy, and the smallest where
//! none is.
#![tactic(auto)]

mod latencies;
mod laws;
mod lines;
mod location;
mod pieces;
mod places;
mod regions;
mod rows;
mod same;
mod several;
mod tables;

pub use latencies::Latencies;
pub use laws::free_prefixes;
pub use location::Location;
pub use places::choose_place;
pub use regions::choose_region;
pub use rows::{read_location, read_region_latency};
pub use tables::{TableLine, Tables};
