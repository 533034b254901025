//! Rows by hand and from outside: texts and octets of values, and types.
#![tactic(auto)]

#[cfg(test)]
mod values;
