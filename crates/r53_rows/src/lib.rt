//! Tests that cross crates: whole runs over objects in memory, against packets and replies from outside.
#![tactic(auto)]

#[cfg(test)]
mod drills;
#[cfg(test)]
mod faults;
#[cfg(test)]
mod lines;
#[cfg(test)]
mod once;
#[cfg(test)]
mod serving;
#[cfg(test)]
mod stores;
#[cfg(test)]
mod two_disks;
