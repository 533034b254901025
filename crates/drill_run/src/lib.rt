//! A drill: a store is made and set up, events run over it one after another, and a line tells what
//! they came to.
//!
//! Its lines are those of a session, without a network and without replies: what is counted comes from
//! the outcomes of what the lines ask for. The sink is asked for nothing before the summary.
#![tactic(auto)]

mod answers;
mod asking;
mod counting;
mod events;
mod health;
mod running;
mod summing;
mod taking;

pub use answers::Drilled;
pub use counting::Tally;
pub use running::drill;
pub use zone_journal::Side;
