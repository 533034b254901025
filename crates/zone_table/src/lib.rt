//! The zones of a server and their record sets: found by name, by key and by reference, and changed
//! by edits.
//!
//! An edit is made ready first, which takes all its memory, and then made, which can't fail. A set
//! that is not in an edit keeps its reference, and a key its slot while it has a set.
#![tactic(auto)]

mod edits;
mod laws;
mod making;
mod needs;
mod refs;
mod zones;

pub use cidr_routing::{Collections, Ident, choose_block};
pub use edits::{Ready, SetKeys, Sets, ZoneEdit};
pub use laws::{one_apex, one_edit, sets_of_one};
pub use octets::OutOfMemory;
pub use refs::Delta;
pub use zone_finding::Group;
pub use zone_list::{
    RecordSet, Scratch, SetKey, SetRef, SetRefs, Watch, behind_text, fields_are_read, find,
    has_spelling, key_cmp, keys_are_ordered, region_at, sub_at,
};
pub use zones::Zones;
