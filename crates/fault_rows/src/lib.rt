//! Rows of the lines of a dump, byte by byte.
#![tactic(auto)]

#[cfg(test)]
mod dumps;
