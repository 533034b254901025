//! Control lines: what a line of JSON asks for, or its first fault.
//!
//! A line is one object of one member, whose name says what is asked for. Every line of octets is
//! read so, also one that is no JSON and no text.
#![tactic(auto)]

mod asking;
mod commands;
mod reading;

pub use asking::Line;
pub use command_octets::Command;
pub use line_reading::{LineFault, LineReason, Member};
pub use query_lines::{Packet, Ports, QueryLine};
pub use reading::read_line;
pub use zone_lines::ListOfSets;
