//! Rows of the journal: the bytes of a new store's files, and the most that a file takes.
#![tactic(auto)]

mod counting;
#[cfg(test)]
mod tests;

pub use counting::CountingDisk;
