//! How the valves of checks, sets and target groups are planned, and what feeds each of them.
//!
//! A set that nothing decides has no valve: it is healthy, and nothing but its seat is written for it. Nor
//! has one that a check alone decides, but in a target group whose health counts: its seat tells the valve of
//! that check (`seating`). Room for a valve is kept all the same, so that no command wants memory.
//!
//! The valves of checks and what feeds them come first (`building`), then those of evaluated aliases and of
//! the sets of their target groups (`listing`) and of these groups (`grouping`), and then what feeds the valves
//! of sets (`joining`). All of it is made in room that was made before.
#![tactic(auto)]

mod building;
mod finding;
mod grouping;
mod joining;
mod listing;
mod planning;
mod seating;
mod seats;

pub use building::{MOST_CHECKS, grow_seats, inverted_of, list_ids, list_seen, need_of};
pub use finding::{number_at, place_in, place_near};
pub use listing::{is_watched, only_check};
pub use planning::plan_valves;
pub use policy_select::{
    Delta, Group, HealthView, Scratch, SetRef, Watch, Zones, find_group, views_agree,
};
pub use seating::{seat_anew, seat_beside};
pub use seats::{Seat, own_valve};
