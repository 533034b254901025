//! The control line ChangeResourceRecordSets: a change batch as the AWS command line writes it.
//!
//! A value is given in octets already, of the set's type, and an alias has its target in the
//! batch's own zone.
#![tactic(auto)]

mod aliases;
mod batches;
mod sets;
mod values;

pub use batches::change_sets;
