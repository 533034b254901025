//! Commands on collections of address blocks beside the sets that name locations: the edit of the
//! zones that one makes, or why it is refused.
//!
//! Nothing is changed here. Collections stand with the zones, so that an edit replaces them.
#![tactic(auto)]

mod changing;
mod naming;

pub use changing::change_collections;
