//! Rows by hand and from outside: texts of names, and fields, numbers and strings of values.
#![tactic(auto)]

#[cfg(test)]
mod fields;
#[cfg(test)]
mod names;
#[cfg(test)]
mod strings;
