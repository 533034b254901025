//! Rows by hand over configurations: snapshots that are read and written.
#![tactic(auto)]

#[cfg(test)]
mod states;
