//! The control lines on collections of address blocks: CreateCidrCollection, ChangeCidrCollection
//! and DeleteCidrCollection.
//!
//! A block may have any length here: which lengths a collection takes is told when it is changed.
#![tactic(auto)]

mod collections;
mod names;

pub use collections::{change_collection, create_collection, delete_collection};
