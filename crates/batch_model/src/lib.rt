//! Batches of changes to the sets of a zone, and by which rules a batch is made whole or refused.
//!
//! The rules are definitions over plain lists, for contracts to cite; what runs here only holds
//! changes and refusals.
#![tactic(auto)]

mod batches;
mod laws;
mod refusals;

pub use batches::{Action, Batch, Change, Changes};
pub use laws::{one_batch_outcome, zones_stay};
pub use refusals::{BatchRefusal, ChangeRefusal};
pub use set_octets::{
    Body, Place, RData, RType, Reason, RecordSet, Role, Routing, ValueFault, Values, check_set,
    has_spelling, is_long, texts_read_as_values, write_set,
};
pub use zone_model::{key_cmp, keys_are_ordered};
