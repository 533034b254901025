//! A set in its pieces, passed on through a buffer into a sink.
//!
//! A text that is written so has no bound that a buffer could have: where the buffer has no room for
//! the next piece, what it holds is written out. The end of the text is written out by the caller.
//! Nothing here takes memory.
#![tactic(auto)]

mod passing;
mod pieces;

pub use list_writing::{
    Scratch, ValueText, begin_list, begin_set_line, end_list, end_set_line, lists_are_whole,
    set_lines_are_whole,
};
pub use passing::{ROOM, make_room, send_last};
pub use pieces::send_set;
pub use whole_writing::Output;
