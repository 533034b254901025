//! What a server does with each kind of control line: the store or the network takes it, and its reply
//! is written.
//!
//! The outcome, the reply and the datagrams are those of the definitions of sessions. A reply comes behind
//! what it tells: at an answer without one, what a crash leaves and what was sent is told instead. How a
//! line is read, and lines one after another, stand above; so does the line that asks for a list of sets.
#![tactic(auto)]

mod answers;
mod asking;
mod binding;
mod commanding;
mod compacting;
mod sending;

pub use answers::Taken;
pub use asking::{observe, query, status};
pub use binding::{bind_ports, take_turns};
pub use commanding::control;
pub use compacting::compact;
pub use sending::sent;
pub use serve_turns::{Store, standing_opens};
