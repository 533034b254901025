//! Whether a group has a set after a change.

ghost use Rattle.std.specs.Prelude.{◌≡◌, ◌≢◌, ◌<◌, ◌↔◌, ℕ, [], IsTrue, Some, length, slice_get};
ghost use Rattle.record_set.specs.Sets.{key_of};
ghost use Rattle.record_set.specs.declared.sets.RecordSet.{RecordSet};
ghost use Rattle.record_set.specs.declared.sets.SetKey.{SetKey};
ghost use Rattle.zone_table.specs.Changes.{IsKeyOf};
ghost use Rattle.zone_table.specs.Sets.{IsAmong, group};
ghost use Rattle.zone_table.specs.Edits.{IsAllowed};
ghost use Rattle.zone_table.specs.declared.edits.ZoneEdit.TheVariants.{Change};
ghost use Rattle.alias_links.specs.After.{changed_in, sets_in};
ghost use Rattle.alias_links.specs.Laws.{EmptiesGroup, GoesOn, IsChange};

use crate::keys::adds_to;
use crate::places::stays_at;
use dns_name::Name;
use rdata_layout::RType;
use record_set::{RecordSet, SetKey};
use zone_table::{Scratch, Zones};

/// Whether the change empties the group of a key that it removes.
pub fn empties_group(
    zones: &Zones,
    zone: u32,
    remove: &[SetKey],
    add: &[RecordSet],
    scratch: &mut Scratch,
) -> bool
    requires { IsAllowed zones.now.zones (Change zone remove.now add.now) }
    ensures { IsTrue result
        ↔ EmptiesGroup remove.now (changed_in zones.now.zones zone remove.now add.now) }
{
    let mut near = 0;
    for i in 0..remove.len() {
        if is_emptied(zones, zone, i, remove, add, &mut near, scratch) {
            return true;
        }
    }
    false
}

/// Whether the change empties the group of the key at a place, where it empties none of those of
/// the keys before: of keys that come in zone order the first one of each group is looked at.
fn is_emptied(
    zones: &Zones,
    zone: u32,
    i: usize,
    remove: &[SetKey],
    add: &[RecordSet],
    near: &mut usize,
    scratch: &mut Scratch,
) -> bool
    requires change { IsChange (sets_in zones.now.zones zone) remove.now add.now }
    requires within { i < length remove.now }
    requires before { (j : ℕ) (key : SetKey) → j < i → slice_get remove.now j ≡ Some key
        → group (changed_in zones.now.zones zone remove.now add.now) key.name key.rtype ≢ [] }
    ensures { (key : SetKey) → slice_get remove.now i ≡ Some key → IsTrue result
        ↔ (group (changed_in zones.now.zones zone remove.now add.now) key.name key.rtype ≡ []) }
{
    if goes_on(remove, i) {
        return false;
    }
    let key = &remove[i];
    if is_filled(
        zones, zone, &key.name, key.rtype, remove, add, near, scratch,
    ) {
        return false;
    }
    true
}

/// Whether the key at a place has the name and the type of the key before it.
fn goes_on(keys: &[SetKey], i: usize) -> bool
    requires { i < length keys.now }
    ensures { IsTrue result → GoesOn keys.now i }
{
    if i == 0 {
        return false;
    }
    has_group_of(&keys[i - 1], &keys[i])
}

/// Whether two keys have one name and one type.
fn has_group_of(key: &SetKey, other: &SetKey) -> bool
    ensures { IsTrue result → (key.now.name ≡ other.now.name) × (key.now.rtype ≡ other.now.rtype) }
{
    if key.rtype != other.rtype {
        return false;
    }
    key.name.is_same(&other.name)
}

/// Whether a group has a set after the change. Such a set may come near a place among those that do.
pub fn is_filled(
    zones: &Zones,
    zone: u32,
    name: &Name,
    rtype: RType,
    remove: &[SetKey],
    add: &[RecordSet],
    near: &mut usize,
    scratch: &mut Scratch,
) -> bool
    requires { IsChange (sets_in zones.now.zones zone) remove.now add.now }
    ensures { IsTrue result
        ↔ (group (changed_in zones.now.zones zone remove.now add.now) name.now rtype ≢ []) }
{
    if adds_to(add, name, rtype, near) {
        return true;
    }
    stays_in(zones, zone, name, rtype, remove, scratch)
}

/// Whether a set of a group stays.
fn stays_in(
    zones: &Zones,
    zone: u32,
    name: &Name,
    rtype: RType,
    remove: &[SetKey],
    scratch: &mut Scratch,
) -> bool
    ensures { IsTrue result ↔ ((set : RecordSet)
        × IsAmong (group (sets_in zones.now.zones zone) name.now rtype) set
        × (IsKeyOf remove.now (key_of set) → ⊥)) }
{
    let group = zones.group(zone, name, rtype);
    for i in 0..group.length {
        if stays_at(zones, group, i, remove, scratch) {
            return true;
        }
    }
    false
}
