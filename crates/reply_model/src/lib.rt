//! Reply lines: what a control line came to, as one line of JSON.
//!
//! The lines are definitions over plain values, for contracts to cite; what runs here only holds
//! outcomes. A list of sets and the reply to a packet are told by definitions of their own, since
//! they are written from what is stored.
#![tactic(auto)]

mod outcomes;

pub use config_model::{Command, InputReason, Made, Refusal, one_outcome};
pub use outcomes::{Outcome, Turns};
