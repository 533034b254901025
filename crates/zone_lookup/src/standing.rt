//! What a name is in a zone, of which no set answers by itself.
//!
//! The sets of all names below a name stand together. So the two sets between which a name stands in
//! zone order tell whether it exists, and which of its ancestors do, without a search for each.

ghost use Rattle.std.specs.Prelude.{◌≡◌, ◌≢◌, ◌+◌, [], ℕ, IsTrue, ◌↔◌, List, length};
ghost use Rattle.dns_name.specs.Suffix.{EndsWith};
ghost use Rattle.policy_select.specs.Groups.{sets_in_zone};
ghost use Rattle.policy_select.specs.RecordSetRecord.{RecordSet};
ghost use Rattle.policy_select.specs.FoundOfSetSearch.{IsFirstNamed};
ghost use Rattle.policy_select.specs.Existing.{Exists};
ghost use Rattle.policy_select.specs.Zones.{placed_in};
ghost use Rattle.policy_select.specs.Looking.{HasNameAt, IsApex};
ghost use Rattle.zone_lookup.specs.Served.{zone_of};
ghost use Rattle.zone_lookup.specs.Standing.{AreBeside, FindsAsked, FindsTyped, IsNearest};
ghost use Rattle.zone_lookup.specs.Standing.{HasStanding, IsUnder, NamedAt, NamedBefore, SomeExists};

use crate::cut::cut_above;
use crate::served::hold_at;
use crate::source::source_from;
use dns_name::Name;
use policy_select::{Group, Scratch, Zones, asked_groups, cuts_are_nearest, names_exist};
use rdata_layout::RType;

/// What is found of a name and a type.
#[derive(Clone, Copy)]
pub enum Found {
    /// Its sets of that type.
    Sets(Group),
    /// It has none: the place of the first set of the zone whose name isn't before it.
    Place(usize),
}

/// The sets of a name by the number of their type, or where it has none of that type the place that
/// it has in the zone.
#[inline(always)]
pub fn find_asked(zones: &Zones, zone: u32, name: &Name, qtype: u16) -> Found
    ensures { FindsAsked zones.now.zones zone name.now qtype result }
{
    asked_groups();
    match RType::from_number(qtype) {
        Some(rtype) => find_typed(zones, zone, name, rtype),
        None => Found::Place(place_of(zones, zone, name, None)),
    }
}

/// The same by a type that sets have. No type is lower than A.
fn find_typed(zones: &Zones, zone: u32, name: &Name, rtype: RType) -> Found
    ensures { FindsTyped zones.now.zones zone name.now rtype result }
{
    let found = zones.group(zone, name, rtype);
    if found.length > 0 {
        return Found::Sets(found);
    }
    match rtype {
        RType::A => Found::Place(found.start),
        _ => Found::Place(place_of(zones, zone, name, Some(found.start))),
    }
}

/// The place of the first set of a zone whose name isn't before this one. It is looked for from a
/// place on, where one is told that may be near.
fn place_of(zones: &Zones, zone: u32, name: &Name, near: Option<usize>) -> usize
    ensures { IsFirstNamed (sets_in_zone zones.now.zones zone) name.now result }
{
    zones.group_near(zone, name, RType::A, near).start
}

/// Whether a name exists in a zone. It is looked for from a place on, where one is told that may be
/// near. No set is held.
pub(crate) fn exists_near(zones: &Zones, zone: u32, name: &Name, near: Option<usize>) -> bool
    ensures { IsTrue result ↔ Exists (sets_in_zone zones.now.zones zone) name.now }
{
    zones.well_formed();
    let place = place_of(zones, zone, name, near);
    zones.is_below(zone, place, name)
}

/// Whether the set at a place of a zone has this name: it exists then. The set isn't held.
pub fn has_set_at(zones: &Zones, zone: u32, place: usize, name: &Name) -> bool
    ensures exists { IsTrue result → Exists (sets_in_zone zones.now.zones zone) name.now }
    ensures told { IsTrue result ↔ HasNameAt zones.now.zones zone place name.now }
{
    zones.has_name(zone, place, name)
}

/// What a name is in a zone.
#[derive(Clone, Copy)]
pub enum Standing {
    /// At or below the zone cut of which this is the NS group.
    Below(Group),
    /// Below none, and the sets of this name are taken for it: its own, or a wildcard's.
    Taken(Name),
    /// Below none, and it doesn't exist, nor a wildcard for it.
    Absent,
}

/// What a name is that has this place in its zone. No zone cut stands at a name that doesn't exist,
/// so none is looked for between it and its closest encloser. The scratch holds one set at a time.
pub fn standing_of(
    zones: &Zones,
    zone: u32,
    apex: &Name,
    name: &Name,
    place: usize,
    scratch: &mut Scratch,
) -> Standing
    requires there { IsApex zones.now.zones zone apex.now }
    requires inside { EndsWith name.now apex.now }
    requires some { placed_in zones.now.zones zone ≢ [] }
    requires place { IsFirstNamed (sets_in_zone zones.now.zones zone) name.now place }
    ensures { HasStanding zones.now.zones (zone_of zones.now.zones zone apex.now) name.now result }
{
    let nearest = nearest_of(zones, zone, apex, name, place, scratch);
    standing_from(zones, zone, apex, name, &nearest)
}

/// The same by the longest name at or above it that exists.
fn standing_from(zones: &Zones, zone: u32, apex: &Name, name: &Name, nearest: &Name) -> Standing
    requires there { IsApex zones.now.zones zone apex.now }
    requires nearest { IsNearest (sets_in_zone zones.now.zones zone) name.now nearest.now }
    requires inside { EndsWith nearest.now apex.now }
    ensures { HasStanding zones.now.zones (zone_of zones.now.zones zone apex.now) name.now result }
{
    names_exist();
    cuts_are_nearest();
    if let Some(cut) = cut_above(zones, zone, apex, nearest) {
        return Standing::Below(cut);
    }
    match source_from(zones, zone, apex, name, nearest) {
        Some(from) => Standing::Taken(from),
        None => Standing::Absent,
    }
}

/// The longest name at or above a name that exists.
pub(crate) fn nearest_of(
    zones: &Zones,
    zone: u32,
    apex: &Name,
    name: &Name,
    place: usize,
    scratch: &mut Scratch,
) -> Name
    requires there { IsApex zones.now.zones zone apex.now }
    requires inside { EndsWith name.now apex.now }
    requires some { placed_in zones.now.zones zone ≢ [] }
    requires place { IsFirstNamed (sets_in_zone zones.now.zones zone) name.now place }
    ensures nearest { IsNearest (sets_in_zone zones.now.zones zone) name.now result }
    ensures inside { EndsWith result apex.now }
{
    zones.well_formed();
    if is_child(name, apex) {
        return child_or_apex(zones, zone, apex, name, place);
    }
    let behind = name_at(zones, zone, place, scratch);
    if is_under(&behind, name) {
        return *name;
    }
    let before = name_before(zones, zone, place, scratch);
    nearest_beside(name, &before, &behind)
}

/// The same of a name right below the apex, as most are. The apex exists.
fn child_or_apex(zones: &Zones, zone: u32, apex: &Name, name: &Name, place: usize) -> Name
    requires there { IsApex zones.now.zones zone apex.now }
    requires inside { EndsWith name.now apex.now }
    requires child { length name.now ≡ length apex.now + 1 }
    requires some { placed_in zones.now.zones zone ≢ [] }
    requires place { IsFirstNamed (sets_in_zone zones.now.zones zone) name.now place }
    ensures nearest { IsNearest (sets_in_zone zones.now.zones zone) name.now result }
    ensures inside { EndsWith result apex.now }
{
    zones.well_formed();
    if zones.is_below(zone, place, name) {
        return *name;
    }
    *apex
}

/// Whether a name has one label more than another above it.
fn is_child(name: &Name, other: &Name) -> bool
    requires { EndsWith name.now other.now }
    ensures { IsTrue result ↔ (length name.now ≡ length other.now + 1) }
{
    name.labels() - other.labels() == 1
}

/// The name of the set at a place of a zone, where it has as many.
fn name_at(zones: &Zones, zone: u32, place: usize, scratch: &mut Scratch) -> Option<Name>
    ensures { NamedAt (sets_in_zone zones.now.zones zone) place result }
{
    if place >= zones.count(zone) {
        return None;
    }
    hold_at(zones, zone, place, scratch);
    Some(scratch.name())
}

/// The name of the set in front of a place, where there is one.
fn name_before(zones: &Zones, zone: u32, place: usize, scratch: &mut Scratch) -> Option<Name>
    ensures { NamedBefore (sets_in_zone zones.now.zones zone) place result }
{
    if place == 0 {
        return None;
    }
    name_at(zones, zone, place - 1, scratch)
}

/// Whether there is a name, and it is another one or below that.
fn is_under(name: &Option<Name>, other: &Name) -> bool
    ensures { IsTrue result ↔ IsUnder name.now other.now }
{
    match name {
        Some(name) => name.ends_with(other),
        None => false,
    }
}

/// The longest name at or above a name that exists, by the names of the sets beside its place.
fn nearest_beside(name: &Name, before: &Option<Name>, behind: &Option<Name>) -> Name
    ensures { (sets : List RecordSet) → AreBeside sets name.now before.now behind.now
        → SomeExists sets name.now → IsNearest sets name.now result }
{
    let mut nearest = *name;
    while !is_under(before, &nearest) {
        if is_under(behind, &nearest) {
            return nearest;
        }
        match nearest.parent() {
            Some(parent) => nearest = parent,
            None => return nearest,
        }
    }
    nearest
}
