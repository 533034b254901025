//! Zones by rising number, each with the slots of its sets in a store that all zones share: found
//! by number and by name, and the sets of one of them changed.
//!
//! A key keeps its slot while it has a set, and a set its reference while it stays.
#![tactic(auto)]

mod apexes;
mod changing;
mod finding;
mod hints;
mod refs;
mod shifts;
mod stored;
mod waymarks;

pub use apexes::{Apexes, NamedZone};
pub use finding::{find_zone, first_from, longest, next_id};
pub use hints::{Hint, Hints};
pub use octets::OutOfMemory;
pub use refs::{SetRef, SetRefs};
pub use stored::StoredZone;
pub use zone_changes::{
    Name, RType, RecordSet, Scratch, SetKey, SetList, SetSlots, Stop, Sums, Watch, ZoneSets,
    before_key, behind_key, behind_text, cells_for, closest_in, count_before, exists_in,
    fields_are_read, find, group_in, has_spelling, key_cmp, keys_are_ordered, make_room, no_sums,
    region_at, set_len, sets_in_order, sets_near, sub_at,
};
