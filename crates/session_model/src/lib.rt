//! Sessions: what the lines of an input make of a store and a network, and what is replied to them.
//!
//! These are definitions over plain values, for contracts to cite. A session knows nothing of disks
//! that fail, of how an input comes in pieces, or of how its store is kept.
#![tactic(auto)]

mod laws;

pub use engine_model::Compacted;
pub use laws::{one_asked, one_session, one_step};
pub use reply_model::Turns;
