//! The first alias that would lead to no set after a change.

ghost use Rattle.std.specs.Prelude.{◌≡◌, ◌<◌, ◌↔◌, IsTrue, length, slice_get, Some};
ghost use Rattle.record_set.specs.declared.sets.RecordSet.{RecordSet};
ghost use Rattle.zone_table.specs.Walks.{HasNoTarget};
ghost use Rattle.zone_table.specs.Edits.{IsAllowed};
ghost use Rattle.zone_table.specs.declared.edits.ZoneEdit.TheVariants.{Change};
ghost use Rattle.alias_links.specs.After.{IsFirstKey, changed_in, sets_in};
ghost use Rattle.alias_links.specs.Laws.{AllLead, IsChange};
ghost use Rattle.alias_links.specs.Leasts.{LeastOrNone, StaysWithout, TellsIf};

use crate::groups::is_filled;
use crate::keys::{is_key_of, lesser};
use crate::places::{hold_at, target_at};
use record_set::{Body, RecordSet, SetKey};
use zone_table::{Scratch, Zones};

/// The key of the first set of a zone, after a change, that is an alias of an empty target group.
/// None where no set is.
pub fn missing_after(
    zones: &Zones,
    zone: u32,
    remove: &[SetKey],
    add: &[RecordSet],
    scratch: &mut Scratch,
) -> Option<SetKey>
    requires { IsAllowed zones.now.zones (Change zone remove.now add.now) }
    ensures { IsFirstKey (HasNoTarget (changed_in zones.now.zones zone remove.now add.now))
        (changed_in zones.now.zones zone remove.now add.now) result }
{
    zones.well_formed();
    let kept = missing_kept(zones, zone, remove, add, scratch);
    let added = missing_added(zones, zone, remove, add, scratch);
    lesser(kept, added)
}

/// The least key of the sets that stay and lead to no set. A zone without aliases has none.
fn missing_kept(
    zones: &Zones,
    zone: u32,
    remove: &[SetKey],
    add: &[RecordSet],
    scratch: &mut Scratch,
) -> Option<SetKey>
    requires { IsChange (sets_in zones.now.zones zone) remove.now add.now }
    ensures { LeastOrNone
        (StaysWithout remove.now (changed_in zones.now.zones zone remove.now add.now))
        (sets_in zones.now.zones zone) result }
{
    if zones.aliases(zone) == 0 {
        return None;
    }
    missing_among(zones, zone, remove, add, scratch)
}

/// The same by a look at each set.
fn missing_among(
    zones: &Zones,
    zone: u32,
    remove: &[SetKey],
    add: &[RecordSet],
    scratch: &mut Scratch,
) -> Option<SetKey>
    requires { IsChange (sets_in zones.now.zones zone) remove.now add.now }
    ensures { LeastOrNone
        (StaysWithout remove.now (changed_in zones.now.zones zone remove.now add.now))
        (sets_in zones.now.zones zone) result }
{
    zones.well_formed();
    for i in 0..zones.count(zone) {
        if let Some(key) = missing_at(zones, zone, i, remove, add, scratch) {
            return Some(key);
        }
    }
    None
}

/// The key of the set at a place where it stays and leads to no set.
fn missing_at(
    zones: &Zones,
    zone: u32,
    i: usize,
    remove: &[SetKey],
    add: &[RecordSet],
    scratch: &mut Scratch,
) -> Option<SetKey>
    requires change { IsChange (sets_in zones.now.zones zone) remove.now add.now }
    requires within { i < length (sets_in zones.now.zones zone) }
    ensures { (set : RecordSet) → slice_get (sets_in zones.now.zones zone) i ≡ Some set → TellsIf
        (StaysWithout remove.now (changed_in zones.now.zones zone remove.now add.now) set)
        set result }
{
    let Some(target) = target_at(zones, zone, i) else {
        return None;
    };
    if is_filled(
        zones, zone, &target.0, target.1, remove, add, &mut 0, scratch,
    ) {
        return None;
    }
    hold_at(zones, zone, i, scratch);
    let key = scratch.key();
    if is_key_of(remove, &key) {
        return None;
    }
    Some(key)
}

/// Whether each alias that is added leads to a set after the change.
pub fn all_lead(
    zones: &Zones,
    zone: u32,
    remove: &[SetKey],
    add: &[RecordSet],
    scratch: &mut Scratch,
) -> bool
    requires { IsAllowed zones.now.zones (Change zone remove.now add.now) }
    ensures { IsTrue result ↔ AllLead add.now (changed_in zones.now.zones zone remove.now add.now) }
{
    missing_added(zones, zone, remove, add, scratch).is_none()
}

/// The least key of the sets that are added and lead to no set.
fn missing_added(
    zones: &Zones,
    zone: u32,
    remove: &[SetKey],
    add: &[RecordSet],
    scratch: &mut Scratch,
) -> Option<SetKey>
    requires { IsChange (sets_in zones.now.zones zone) remove.now add.now }
    ensures { LeastOrNone (HasNoTarget (changed_in zones.now.zones zone remove.now add.now))
        add.now result }
{
    let mut least = None;
    for i in 0..add.len() {
        let found = missing_one(zones, zone, &add[i], remove, add, scratch);
        least = lesser(least, found);
    }
    least
}

/// The key of a set that is added, where it leads to no set.
fn missing_one(
    zones: &Zones,
    zone: u32,
    set: &RecordSet,
    remove: &[SetKey],
    add: &[RecordSet],
    scratch: &mut Scratch,
) -> Option<SetKey>
    requires { IsChange (sets_in zones.now.zones zone) remove.now add.now }
    ensures { TellsIf
        (HasNoTarget (changed_in zones.now.zones zone remove.now add.now) set.now)
        set.now result }
{
    let Body::Alias { target, .. } = &set.body else {
        return None;
    };
    if is_filled(zones, zone, target, set.rtype, remove, add, &mut 0, scratch) {
        return None;
    }
    Some(set.key())
}
