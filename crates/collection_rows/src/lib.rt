//! Rows by hand over the numbers of collections that are read back.
#![tactic(auto)]

#[cfg(test)]
mod numbers;
