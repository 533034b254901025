//! JSON that is written without a blank is read back as what it was written of.
//!
//! Laws over the definitions of `serde_json`, each the contract of a function that does nothing.
//! What they ask of a value holds of every reply: numbers are counts, and the names of an object
//! rise.
#![tactic(auto)]

mod laws;

pub use laws::{one_text, texts_read_back};
