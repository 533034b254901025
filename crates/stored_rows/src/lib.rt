//! Sets as octets, kept in cells: rows by hand over the region, and over the parts of a set.
#![tactic(auto)]

#[cfg(test)]
mod parts;
#[cfg(test)]
mod region;
