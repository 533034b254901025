//! Rows by hand over replies from the root zone, which no hosted zone is: octet by octet, as they are made for one asker
//! and as they are settled for all; which are settled; and what the zone tells where it is looked at without a query.
#![tactic(auto)]

#[cfg(test)]
mod asking;
#[cfg(test)]
mod looked;
#[cfg(test)]
mod made;
#[cfg(test)]
mod root;
#[cfg(test)]
mod settled;
