//! What the fifty health checkers of one endpoint have seen.
//!
//! A view turns only after so many equal results in a row. The results themselves are not kept.
#![tactic(auto)]

mod checker;
mod checkers;
mod laws;

pub use checkers::{CHECKERS, Checkers};
pub use laws::{fifty_alone, one_more_result, one_standing, one_view, view_ends_the_last_row};
