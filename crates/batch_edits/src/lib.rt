//! The edit of a zone that a batch makes: what goes and what comes between its sets before the
//! batch and after it.
//!
//! It costs what the batch names: the sets of its names are read and nothing else. A set that is
//! the same before and after, as one that an UPSERT puts again, is no part of the edit.
#![tactic(auto)]

mod differences;
mod editing;
mod laws;
mod order;
mod replacing;
mod sameness;

pub use change_batch::{Batch, BatchRefusal};
pub use editing::{Edit, edit_of};
pub use laws::one_batch_edit;
