//! Rows by hand over the sets of a zone: where chains of aliases lead.
#![tactic(auto)]

#[cfg(test)]
mod chains;
