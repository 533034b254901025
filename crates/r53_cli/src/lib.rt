//! The program's top call: from words and input to what is written, with its theorem.
//!
//! `run` knows nothing of files or sockets: `main` hands in adapters, and a test hands in objects in memory.
#![tactic(auto)]

mod form;
mod intake;
mod laws;
mod once;
mod program;
mod sessions;
mod splitting;
mod status;
mod words;

pub use form::{Form, form_of};
pub use laws::{
    drill_completes, dump_completes, init_completes, one_form, one_reply, one_status, run_completes,
};
pub use once::Once;
pub use program::run;
pub use status::{Status, status_text};
pub use zone_journal::Side;
