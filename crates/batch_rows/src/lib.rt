//! Rows by hand over commands: their octets, a batch that breaks no rule, and one whose set is too long to be kept.
#![tactic(auto)]

#[cfg(test)]
mod coming;
#[cfg(test)]
mod commands;
#[cfg(test)]
mod long;
#[cfg(test)]
mod sets;
