//! Rows by hand over client subnet options: where the first fault stands, and what is written.
#![tactic(auto)]

#[cfg(test)]
mod options;
