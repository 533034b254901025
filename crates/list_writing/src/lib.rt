//! Lists of sets in reply lines and in the lines of a dump, written in pieces.
//!
//! A list has no bound that a buffer could have. Each piece has: between any two of them the buffer
//! may be sent and emptied. The pieces are one line of JSON where the caller writes all of them, in
//! their order. Nothing here takes memory.
#![tactic(auto)]

mod laws;
mod lists;
mod policies;
mod sets;

pub use laws::{lists_are_whole, set_lines_are_whole, sets_are_whole};
pub use lists::{begin_list, begin_set_line, end_list, end_set_line};
pub use set_scratch::Scratch;
pub use sets::{MOST_OF_SET, MOST_OF_VALUE, ValueText, begin_set, end_set, write_value};
