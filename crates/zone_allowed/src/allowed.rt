//! Whether an edit of zones is allowed, tried on the zones.

ghost use Rattle.std.specs.Prelude.{◌≡◌, ◌<◌, IsTrue, ◌↔◌};
ghost use Rattle.std.specs.List.{AllByRecursion};
ghost use Rattle.zone_table.specs.SetsOfRecordSet.{key_of};
ghost use Rattle.zone_table.specs.RecordSetRecord.{RecordSet};
ghost use Rattle.zone_allowed.specs.New.{IsNewZone};
ghost use Rattle.zone_table.specs.Changes.{CanBeAdded, IsKeyOf};
ghost use Rattle.zone_table.specs.Zones.{CanStand, HasName, IsZoneId, placed_in};
ghost use Rattle.zone_table.specs.Placing.{IsThere};
ghost use Rattle.zone_table.specs.Slotted.{sets_of};
ghost use Rattle.zone_table.specs.Edits.{IsAllowed};
ghost use Rattle.zone_table.specs.declared.edits.ZoneEdit.TheVariants.{Change, Begin};

use crate::apart::sets_are_apart;
use crate::there::{are_there, has_key, is_key_of};
use dns_name::Name;
use zone_table::{RecordSet, SetKey, ZoneEdit, Zones, has_spelling, one_apex};

/// Whether an edit is allowed. Keys that rise are compared once each, others with one another.
pub fn is_allowed(zones: &Zones, edit: &ZoneEdit) -> bool
    ensures { IsTrue result ↔ IsAllowed zones.now.zones edit.now }
{
    match edit {
        ZoneEdit::Begin { zone, name, sets } => is_open_allowed(
            zones,
            *zone,
            name,
            sets.as_slice(),
        ),
        ZoneEdit::End(zone) => has_zone(zones, *zone),
        ZoneEdit::Change { zone, remove, add } => {
            is_change_allowed(zones, *zone, remove.as_slice(), add.as_slice())
        }
        ZoneEdit::Collections(_) => true,
    }
}

/// Whether a zone of this number and name can be opened with these sets.
fn is_open_allowed(zones: &Zones, zone: u32, name: &Name, sets: &[RecordSet]) -> bool
    ensures { IsTrue result ↔ IsAllowed zones.now.zones (Begin zone name.now sets.now) }
{
    is_new_zone(zones, zone, name) && can_be_added(name, sets)
}

/// Whether a zone of this number and name is new: the number is one that zones have, and no zone has
/// it, or the name.
pub fn is_new_zone(zones: &Zones, zone: u32, name: &Name) -> bool
    ensures { IsTrue result ↔ IsNewZone zones.now.zones zone name.now }
{
    zone > 0 && !has_zone(zones, zone) && !has_name(zones, name)
}

/// Whether a zone has this number.
fn has_zone(zones: &Zones, zone: u32) -> bool
    ensures { IsTrue result ↔ IsZoneId zones.now.zones zone }
{
    zones.apex(zone).is_some()
}

/// Whether a zone has this name.
fn has_name(zones: &Zones, name: &Name) -> bool
    ensures { IsTrue result ↔ HasName zones.now.zones name.now }
{
    zones.well_formed();
    let Some(zone) = zones.zone_for(name) else {
        return false;
    };
    match zones.apex(zone) {
        Some(apex) => apex.is_same(name),
        None => unreachable!(),
    }
}

/// Whether the sets of a zone can be changed: whether these keys are there, and these sets can be
/// added and are new without them.
pub fn is_change_allowed(zones: &Zones, zone: u32, remove: &[SetKey], add: &[RecordSet]) -> bool
    ensures { IsTrue result ↔ IsAllowed zones.now.zones (Change zone remove.now add.now) }
{
    zones.well_formed();
    one_apex();
    let Some(apex) = zones.apex(zone) else {
        return false;
    };
    if !are_there(zones, zone, remove) {
        return false;
    }
    if !can_be_added(&apex, add) {
        return false;
    }
    are_new(zones, zone, remove, add)
}

/// Whether the sets can stand in a zone of this name together.
fn can_be_added(name: &Name, sets: &[RecordSet]) -> bool
    ensures { IsTrue result ↔ CanBeAdded name.now sets.now }
{
    can_stand(name, sets) && sets_are_apart(sets)
}

/// Whether each set can stand in a zone of this name.
fn can_stand(name: &Name, sets: &[RecordSet]) -> bool
    ensures { IsTrue result ↔ AllByRecursion (λ set. CanStand name.now set) sets.now }
{
    match sets {
        [] => true,
        [first, others @ ..] => can_stand_in(name, first) && can_stand(name, others),
    }
}

/// Whether a set can stand in a zone of this name.
fn can_stand_in(name: &Name, set: &RecordSet) -> bool
    ensures { IsTrue result ↔ CanStand name.now set.now }
{
    set.name.ends_with(name) && has_spelling(set)
}

/// Whether no set has a key that is there and isn't among these.
fn are_new(zones: &Zones, zone: u32, remove: &[SetKey], add: &[RecordSet]) -> bool
    ensures { IsTrue result
        ↔ AllByRecursion (λ set. IsThere (sets_of (placed_in zones.now.zones zone)) (key_of set)
        → IsKeyOf remove.now (key_of set)) add.now }
{
    add.iter().all(|set| is_new(zones, zone, remove, set))
}

/// Whether a key is not there, or among these.
fn is_new(zones: &Zones, zone: u32, remove: &[SetKey], set: &RecordSet) -> bool
    ensures { IsTrue result ↔ (IsThere (sets_of (placed_in zones.now.zones zone)) (key_of set.now)
        → IsKeyOf remove.now (key_of set.now)) }
{
    let key = set.key();
    !has_key(zones, zone, &key) || is_key_of(remove, &key)
}
