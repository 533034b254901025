//! The set of a key, read from a table of zones.

ghost use Rattle.std.specs.Prelude.{◌≡◌, ◌↔◌, IfOk, IsTrue};
ghost use Rattle.zone_table.specs.Zones.{placed_in};
ghost use Rattle.zone_table.specs.Slotted.{sets_of};
ghost use Rattle.batch_names.specs.Keyed.{HoldsFrom, IsSetOfOrNone};

use crate::held::read_held;
use batch_model::{RecordSet, key_cmp, keys_are_ordered};
use octets::OutOfMemory;
use std::alloc::Global;
use zone_table::{Scratch, SetKey, Zones};

/// A copy of the set of a zone that has this key, or none where the zone has no such set. What the
/// scratch holds afterwards is left open.
///
/// It looks at no other sets but some that the search for a key meets.
pub fn keyed_set(
    alloc: Global,
    zones: &Zones,
    zone: u32,
    key: &SetKey,
    scratch: &mut Scratch,
) -> Result<Option<RecordSet>, OutOfMemory>
    ensures { IfOk result (λ found.
        IsSetOfOrNone (sets_of (placed_in zones.now.zones zone)) key.now found) }
{
    zones.well_formed();
    if !hold_from(zones, zone, key, scratch) {
        return Ok(None);
    }
    let set = read_held(alloc, scratch)?;
    if !is_same_key(&set.key(), key) {
        return Ok(None);
    }
    Ok(Some(set))
}

/// Whether a zone has a set from a key on, the first of which is held then.
fn hold_from(zones: &Zones, zone: u32, key: &SetKey, scratch: &mut Scratch) -> bool
    ensures { HoldsFrom (sets_of (placed_in zones.now.zones zone)) key.now result scratch.new }
{
    zones.well_formed();
    let Some(set) = zones.next_from(zone, key, false) else {
        return false;
    };
    if !zones.load(set, scratch) {
        unreachable!();
    }
    true
}

/// Whether two keys are one.
fn is_same_key(key: &SetKey, other: &SetKey) -> bool
    ensures { IsTrue result ↔ (key.now ≡ other.now) }
{
    keys_are_ordered();
    key_cmp(key, other).is_eq()
}
