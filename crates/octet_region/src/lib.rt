//! Octets of any length, kept by handles in cells of 32, which are taken and given back without
//! memory.
//!
//! A handle that was freed may be given again by the next put: who keeps one must forget it when it
//! is freed.
#![tactic(auto)]

mod cells;
mod chains;
mod growth;
mod handle;
mod reads;
mod region;

pub use cells::cells_for;
pub use handle::Handle;
pub use octets::OutOfMemory;
pub use region::Region;
