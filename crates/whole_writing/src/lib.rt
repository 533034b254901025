//! Writing to the end, whatever part of a piece a sink takes at a time.
//!
//! Where a sink fails, or takes nothing of a piece that isn't empty, a first part of the piece was
//! written, and never the whole.
#![tactic(auto)]

mod laws;
mod output;

pub use laws::{first_piece_fails, pieces_join};
pub use output::{Output, write_whole};
