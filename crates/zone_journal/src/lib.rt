//! A journal over two disks: a snapshot and the entries since, compacted in pieces.
//!
//! The open file of the greater generation decides, `a` where they are equal; the other one is free
//! to be built anew.
#![tactic(auto)]

mod answers;
mod empty;
mod journal;
mod laws;
mod start;

pub use answers::{Begun, Init, OpenFault, Piece, Progress, Side};
pub use empty::init;
pub use file_building::{Appended, Entry};
pub use journal::ZoneJournal;
pub use laws::{begins_in_place, pair_opens_to_one};
pub use octets::OutOfMemory;
