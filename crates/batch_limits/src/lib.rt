//! What a batch of changes meets by itself, before any is applied.
//!
//! Each set is looked at first, change by change, and then the batch as a whole is counted.
#![tactic(auto)]

mod limits;

pub use batch_model::{Action, Batch, BatchRefusal, Change, ChangeRefusal, Changes};
pub use limits::check_limits;
