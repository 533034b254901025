//! Batches of changes to the sets of a zone: the sets after one, or its first refusal.
//!
//! A batch is made whole or not at all. It is tested by itself first, then its changes are applied
//! in their order, and the rules that sets meet together are looked at once, after the last change.
#![tactic(auto)]

mod applying;
mod lent;
mod near;
mod preparing;
mod whole;

pub use batch_limits::{Action, Batch, BatchRefusal, Change, Changes};
pub use preparing::{prepare, prepare_lent};
pub use zone_rules::{lend_all, set_at};
