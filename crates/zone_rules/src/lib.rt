//! The rules that the sets of a zone meet together, tried over neighbours in zone order.
//!
//! A group's sets stand together in zone order, and so do the sets of a name.
#![tactic(auto)]

mod breaks;
mod cname;
mod findings;
mod groups;
mod lent;
mod marks;
mod places;
mod policies;
mod sizes;

pub use breaks::first_break;
pub use groups::is_one_group;
pub use lent::{lend_all, set_at};
pub use places::is_one_place;
pub use policies::is_one_policy;
