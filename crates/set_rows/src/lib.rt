//! Rows by hand over record sets: an alias of an address block, equality, texts of policies, and octets.
#![tactic(auto)]

#[cfg(test)]
mod equality;
#[cfg(test)]
mod large;
#[cfg(test)]
mod reasons;
#[cfg(test)]
mod sets;
#[cfg(test)]
mod spellings;
#[cfg(test)]
mod texts;
