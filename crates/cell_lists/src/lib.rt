//! Lists of cells, linked both ways in flat arrays: a cell comes to the front of a list, and goes
//! wherever it stands, both at once and without memory.
//!
//! A cell is a number, and stands in one list at most. A list is found by the number of its owner.
#![tactic(auto)]

mod links;
mod lists;
mod room;
mod walk;

pub use lists::CellLists;
pub use octets::OutOfMemory;
pub use room::make_room_for;
pub use walk::Cells;
