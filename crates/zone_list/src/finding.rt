//! Zones found by their numbers and names.

ghost use Rattle.std.specs.Prelude.{◌≡◌, ◌<◌, ◌-◌, IfSome, IsTrue, ◌↔◌};
ghost use Rattle.zone_list.specs.Found.{FindsZone, IsAsLong, IsAt, IsLonger, IsPast, IsSplit};
ghost use Rattle.zone_list.specs.Found.{LongestOrNone, NextZoneOrNone};
ghost use Rattle.zone_list.specs.Kept.{named, named_of};
ghost use Rattle.zone_list.specs.Zones.{AreListed};

use crate::stored::StoredZone;
use zone_changes::Name;

/// The place of the zone with this number.
pub fn find_zone(list: &[StoredZone], id: u32) -> Option<usize>
    requires { AreListed (named_of list.now) }
    ensures { FindsZone (named_of list.now) id result }
{
    if let Some(place) = by_count(list, id) {
        return Some(place);
    }
    let place = first_from(list, id);
    if place == list.len() {
        return None;
    }
    if list[place].id() != id {
        return None;
    }
    Some(place)
}

/// The place of the zone with this number, where it is the one of so many.
fn by_count(list: &[StoredZone], id: u32) -> Option<usize>
    ensures { IfSome result (λ place. IsAt (named_of list.now) id place) }
{
    if id == 0 {
        return None;
    }
    let place = id as usize - 1;
    if place >= list.len() {
        return None;
    }
    if list[place].id() != id {
        return None;
    }
    Some(place)
}

/// How many zones have smaller numbers.
pub fn first_from(list: &[StoredZone], id: u32) -> usize
    requires { AreListed (named_of list.now) }
    ensures { IsSplit (named_of list.now) id result result }
{
    let mut low = 0;
    let mut high = list.len();
    while low < high {
        let (next_low, next_high) = halve(list, id, low, high);
        low = next_low;
        high = next_high;
    }
    low
}

/// Looks at the zone in the middle between two places.
fn halve(list: &[StoredZone], id: u32, low: usize, high: usize) -> (usize, usize)
    requires listed { AreListed (named_of list.now) }
    requires bracket { IsSplit (named_of list.now) id low high }
    requires apart { low < high }
    ensures bracket { IsSplit (named_of list.now) id result.0 result.1 }
    ensures nearer { result.1 - result.0 < high - low }
{
    let middle = low + (high - low) / 2;
    if list[middle].id() < id {
        return (middle + 1, high);
    }
    (low, middle)
}

/// The number of the zone of the longest name that holds this one, and how many labels that name
/// has.
pub fn longest(list: &[StoredZone], name: &Name) -> Option<(u32, usize)>
    ensures { LongestOrNone (named_of list.now) name.now result }
{
    let mut found = None;
    for zone in list {
        found = longer(found, zone, name);
    }
    found
}

/// What was found so far, or this zone where it holds the name and its own name is longer.
fn longer(found: Option<(u32, usize)>, zone: &StoredZone, name: &Name) -> Option<(u32, usize)>
    ensures { IsLonger found (named zone.now) name.now result }
{
    let apex = zone.apex();
    if !name.ends_with(apex) {
        return found;
    }
    let labels = apex.labels();
    if is_as_long(found, labels) {
        return found;
    }
    Some((zone.id(), labels))
}

/// Whether a name with so many labels or more was found.
fn is_as_long(found: Option<(u32, usize)>, labels: usize) -> bool
    ensures { IsTrue result ↔ IsAsLong found labels }
{
    match found {
        Some((_, most)) => labels <= most,
        None => false,
    }
}

/// The least number above this one.
pub fn next_id(list: &[StoredZone], id: u32) -> Option<u32>
    requires { AreListed (named_of list.now) }
    ensures { NextZoneOrNone (named_of list.now) id result }
{
    let place = first_past(list, id);
    if place == list.len() {
        return None;
    }
    Some(list[place].id())
}

/// How many zones have no larger numbers.
fn first_past(list: &[StoredZone], id: u32) -> usize
    requires { AreListed (named_of list.now) }
    ensures { IsPast (named_of list.now) id result }
{
    let place = first_from(list, id);
    if place == list.len() {
        return place;
    }
    if list[place].id() > id {
        return place;
    }
    place + 1
}
