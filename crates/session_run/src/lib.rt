//! A session from its tables and its files on: both are read, and then the lines of an input are taken.
//!
//! What the session writes and sends, and what its files open to, is worked out by the definitions from
//! what it is over alone: the input, the tables, the two files, the ports and arrivals of the network,
//! the random words, and at which lines memory was wanted.
#![tactic(auto)]

mod laws;
mod ran;
mod running;

pub use laws::{no_store_or_beginning, one_beginning};
pub use ran::Ran;
pub use running::run_session;
pub use session_loop::Ended;
pub use zone_journal::Side;
