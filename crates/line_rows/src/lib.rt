//! Rows of inputs split into lines, of tables that are longer than a buffer, of a line that is cut off, and of two
//! numbers of a line that no reply tells.
#![tactic(auto)]

#[cfg(test)]
mod cut;
#[cfg(test)]
mod inputs;
#[cfg(test)]
mod numbers;
#[cfg(test)]
mod table_inputs;
