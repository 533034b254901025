//! Batches of changes of record sets: the edit of the zones that one makes, or why it is refused,
//! with all that is looked at behind the last change.
//!
//! Nothing is changed here. A batch costs what it names: the checks, collections and locations of
//! sets that stay are there, and aliases are gone through only where a change could lead one astray.
#![tactic(auto)]

mod changing;
mod links;
mod names;
mod sizes;

pub use changing::change_zone;
