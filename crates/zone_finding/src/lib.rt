//! A zone found among those of a server by its number, and its sets looked at, in the store and the
//! list in which they are kept.
//!
//! Each call is told that what it takes of them is intact; what keeps it so is above. A hint, which the
//! list alone gives, tells where to look first and may be wrong.
#![tactic(auto)]

mod looking;
mod refs;

pub use looking::{
    apex_of, copies, has_name, hint_of, hint_or, is_below, load, may_have_cuts, may_have_wildcards,
    order_of, piece, pieces, policy, slot_at, slot_behind, slot_in, slots_of, sums_in, target,
    view_near, watch, zone_sets,
};
pub use refs::Group;
