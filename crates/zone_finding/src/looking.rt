//! A zone found by its number, with its sets in their order.

ghost use Rattle.std.specs.Prelude.{◌≡◌, ◌≤◌, ◌<◌, ◌+◌, ◌-◌, ◌^◌, ◌++◌, ℕ, length, slice_get, Some, IfOk};
ghost use Rattle.std.specs.Prelude.{◌↔◌, IsTrue, List, drop, false, take};
ghost use Rattle.zone_list.specs.FoundOfSetSearch.{IsBelowAt};
ghost use Rattle.zone_list.specs.Stops.{bound_of};
ghost use Rattle.zone_list.specs.Sums.{sums_of};
ghost use Rattle.zone_list.specs.Kept.{AreIntact, named_of, zones_in};
ghost use Rattle.zone_list.specs.Zones.{AreListed, placed_in};
ghost use Rattle.zone_list.specs.Slotted.{IsSlotAt, sets_of};
ghost use Rattle.zone_list.specs.Orders.{IsOrder, slotted_of};
ghost use Rattle.zone_list.specs.Policies.{PolicyIsAt, set_piece, set_pieces};
ghost use Rattle.zone_list.specs.Spelling.{IsPart, from_policy};
ghost use Rattle.zone_finding.specs.Counted.{AreCounted};
ghost use Rattle.zone_finding.specs.Looking.{HasNameAt, HasNoStar, IsApex, Loads, ServersAreAt, SlotAt};
ghost use Rattle.zone_finding.specs.Looking.{RefersTo, SlotBehind, Targets, Watches, slots_in};
ghost use Rattle.zone_finding.specs.Stored.{GetsApex, GetsNear, GetsOrder, IsReferredTo, ViewsNear};
ghost use Rattle.zone_finding.specs.Stored.{GivesZoneSets};

use crate::refs::Group;
use octets::OutOfMemory;
use std::alloc::Global;
use zone_list::{
    Hint, Name, RType, RecordSet, Scratch, SetList, SetRef, SetSlots, Stop, StoredZone, Sums,
    Watch, ZoneSets, count_before, find_zone, no_sums, sets_in_order, sets_near,
};

/// The slots of a zone's sets, in zone order.
pub fn order_of<'a>(store: &SetSlots, list: &'a [StoredZone], zone: u32) -> Option<&'a [u32]>
    requires { AreIntact store.now.slots list.now }
    ensures { GetsOrder store.now.slots list.now zone result }
{
    match find_zone(list, zone) {
        Some(place) => Some(list[place].order()),
        None => None,
    }
}

/// The sets of a zone, looked at by their places.
pub fn zone_sets<'a>(store: &'a SetSlots, list: &'a [StoredZone], zone: u32) -> Option<ZoneSets<'a>>
    requires { AreIntact store.now.slots list.now }
    ensures { GivesZoneSets (zones_in store.now.slots list.now) zone result }
{
    match order_of(store, list, zone) {
        Some(order) => Some(sets_in_order(store, zone, order)),
        None => None,
    }
}

/// The slots of a zone's sets, in zone order, and where those of a name may stand: a hint, which may
/// be wrong.
fn order_near<'a>(
    store: &SetSlots,
    list: &'a [StoredZone],
    zone: u32,
    name: &Name,
) -> Option<(&'a [u32], Option<Hint>)>
    requires { AreIntact store.now.slots list.now }
    ensures { GetsNear store.now.slots list.now zone result }
{
    match find_zone(list, zone) {
        Some(place) => {
            let found = &list[place];
            Some((found.order(), found.hint(name)))
        }
        None => None,
    }
}

/// The sets of a zone, looked at by their places, with such a hint.
pub fn view_near<'a>(
    store: &'a SetSlots,
    list: &'a [StoredZone],
    zone: u32,
    name: &Name,
) -> Option<(ZoneSets<'a>, Option<usize>)>
    requires { AreIntact store.now.slots list.now }
    ensures { ViewsNear (zones_in store.now.slots list.now) zone result }
{
    match order_near(store, list, zone, name) {
        Some((order, Some(hint))) => Some((
            sets_near(store, zone, order, hint.cell),
            Some(hint.place),
        )),
        Some((order, None)) => Some((sets_in_order(store, zone, order), None)),
        None => None,
    }
}

/// The name of a zone's apex.
pub fn apex_of<'a>(store: &SetSlots, list: &'a [StoredZone], zone: u32) -> Option<&'a Name>
    requires { AreIntact store.now.slots list.now }
    ensures { GetsApex (zones_in store.now.slots list.now) zone result }
{
    match find_zone(list, zone) {
        Some(place) => Some(list[place].apex()),
        None => None,
    }
}

/// The slot of the set at a place of a group that begins at another.
pub fn slot_in(store: &SetSlots, list: &[StoredZone], zone: u32, start: usize, i: usize) -> u32
    requires kept { AreIntact store.now.slots list.now }
    requires place { start + i < length (placed_in (zones_in store.now.slots list.now) zone) }
    ensures { IsSlotAt (placed_in (zones_in store.now.slots list.now) zone) (start + i) result }
{
    match order_of(store, list, zone) {
        Some(order) => slot_of(order, start + i),
        None => unreachable!(),
    }
}

/// The slots of the sets of a group, in zone order.
pub fn slots_of<'a>(store: &SetSlots, list: &'a [StoredZone], group: Group) -> &'a [u32]
    requires kept { AreIntact store.now.slots list.now }
    requires within { group.start + group.length
        ≤ length (placed_in (zones_in store.now.slots list.now) group.zone) }
    ensures { result.now ≡ slots_in (zones_in store.now.slots list.now) group }
{
    match order_of(store, list, group.zone) {
        Some(order) => part_of(order, group.start, group.length),
        None => &[],
    }
}

/// So many slots from a place on.
fn part_of(order: &[u32], start: usize, count: usize) -> &[u32]
    requires { start + count ≤ length order.now }
    ensures { result.now ≡ take count (drop start order.now) }
{
    &order[start..start + count]
}

/// The slot of the set at a place of a zone.
pub fn slot_at(store: &SetSlots, list: &[StoredZone], zone: u32, i: usize) -> Option<u32>
    requires { AreIntact store.now.slots list.now }
    ensures { SlotAt (placed_in (zones_in store.now.slots list.now) zone) i result }
{
    let Some(order) = order_of(store, list, zone) else {
        return None;
    };
    if i < order.len() {
        return Some(slot_of(order, i));
    }
    None
}

/// The slot at a place.
fn slot_of(order: &[u32], place: usize) -> u32
    requires { place < length order.now }
    ensures { slice_get order.now place ≡ Some result }
{
    order[place]
}

/// Whether there is a set at a place of a zone that has the name.
pub fn has_name(store: &SetSlots, list: &[StoredZone], zone: u32, place: usize, name: &Name) -> bool
    requires { AreIntact store.now.slots list.now }
    ensures { IsTrue result
        ↔ HasNameAt (zones_in store.now.slots list.now) zone place name.now }
{
    let Some(sets) = zone_sets(store, list, zone) else {
        return false;
    };
    if place >= sets.count() {
        return false;
    }
    match sets.type_at(place, name) {
        Some(_) => true,
        None => false,
    }
}

/// Whether there is a set at a place of a zone that has the name, or one below it.
pub fn is_below(store: &SetSlots, list: &[StoredZone], zone: u32, place: usize, name: &Name) -> bool
    requires { AreIntact store.now.slots list.now }
    ensures { IsTrue result
        ↔ IsBelowAt (sets_of (placed_in (zones_in store.now.slots list.now) zone)) name.now place }
{
    let Some(sets) = zone_sets(store, list, zone) else {
        return false;
    };
    if place >= sets.count() {
        return false;
    }
    sets.is_below(place, name)
}

/// The slot of the first set of a zone behind the bound, with a hint of its place.
pub fn slot_behind(
    store: &SetSlots,
    list: &[StoredZone],
    zone: u32,
    to: &Stop,
    hint: Option<usize>,
) -> Option<u32>
    requires { AreIntact store.now.slots list.now }
    ensures { SlotBehind (placed_in (zones_in store.now.slots list.now) zone) (bound_of to.now)
        result }
{
    let Some(sets) = zone_sets(store, list, zone) else {
        return None;
    };
    let place = count_before(&sets, to, hint);
    if place < sets.count() {
        return Some(slot_in(store, list, zone, place, 0));
    }
    None
}

/// A place at which the sets of a name may stand in a zone: a hint, which may be wrong.
pub fn hint_of(list: &[StoredZone], zone: u32, name: &Name) -> Option<usize>
    requires { AreListed (named_of list.now) }
{
    match find_zone(list, zone) {
        Some(place) => list[place].place(name),
        None => None,
    }
}

/// A hint, or where there is none one by the name above.
pub fn hint_or(list: &[StoredZone], zone: u32, name: &Name, hint: Option<usize>) -> Option<usize>
    requires { AreListed (named_of list.now) }
{
    match hint {
        Some(place) => Some(place),
        None => hint_above(list, zone, name),
    }
}

/// A place near which the sets of a name may stand that has no hint of its own, which may be wrong.
#[inline(never)]
fn hint_above(list: &[StoredZone], zone: u32, name: &Name) -> Option<usize>
    requires { AreListed (named_of list.now) }
{
    match find_zone(list, zone) {
        Some(place) => list[place].hint_above(name),
        None => None,
    }
}

/// How many octets the sets of a zone have, and how many of them are aliases.
pub fn sums_in(store: &SetSlots, list: &[StoredZone], zone: u32) -> Sums
    requires { AreIntact store.now.slots list.now }
    ensures { result ≡ sums_of (placed_in (zones_in store.now.slots list.now) zone) }
{
    match find_zone(list, zone) {
        Some(place) => list[place].sums(),
        None => no_sums(),
    }
}

/// Whether a zone may have NS sets of another name than its apex. It has none where the names of all
/// have together as many labels as if each were the apex: no name of a zone has fewer.
pub fn may_have_cuts(store: &SetSlots, list: &[StoredZone], zone: u32) -> bool
    requires kept { AreIntact store.now.slots list.now }
    requires counted { (octets : ℕ) × AreCounted store.now list.now octets }
    requires few { length store.now.slots < 2 ^ 32 }
    ensures { result ≡ false → (apex : List (List ℕ))
        → IsApex (zones_in store.now.slots list.now) zone apex
        → ServersAreAt (zones_in store.now.slots list.now) zone apex }
{
    let Some(place) = find_zone(list, zone) else {
        return false;
    };
    let found = &list[place];
    let sums = found.sums();
    let least = sums.servers.wrapping_mul(found.apex().labels() as u64);
    if sums.labels == least {
        return false;
    }
    true
}

/// Whether a zone may have sets with the label `*` in their names. It has none where no name has the
/// octet of `*`.
pub fn may_have_wildcards(store: &SetSlots, list: &[StoredZone], zone: u32) -> bool
    requires kept { AreIntact store.now.slots list.now }
    requires counted { (octets : ℕ) × AreCounted store.now list.now octets }
    requires few { length store.now.slots < 2 ^ 32 }
    ensures { result ≡ false → HasNoStar (zones_in store.now.slots list.now) zone }
{
    let sums = sums_in(store, list, zone);
    if sums.starred == 0 {
        return false;
    }
    true
}

/// Whether a reference names a set.
fn is_named(store: &SetSlots, list: &[StoredZone], set: SetRef) -> bool
    requires { AreIntact store.now.slots list.now }
    ensures { IsReferredTo store.now.slots (zones_in store.now.slots list.now) set result }
{
    match store.zone_of(set.slot) {
        None => false,
        Some(zone) => {
            if zone != set.zone {
                return false;
            }
            true
        }
    }
}

/// Holds the set that a reference names in a scratch. Where it names none, what was held stays.
pub fn load(store: &SetSlots, list: &[StoredZone], set: SetRef, into: &mut Scratch) -> bool
    requires { AreIntact store.now.slots list.now }
    ensures { Loads (zones_in store.now.slots list.now) set into.old into.new result }
{
    if !is_named(store, list, set) {
        return false;
    }
    store.hold(set.slot, into);
    true
}

/// The octets of the set that a reference names from its policy on, as many as a buffer has room
/// for.
pub fn policy<'a>(
    store: &SetSlots,
    list: &[StoredZone],
    set: SetRef,
    at: usize,
    buffer: &'a mut [u8],
) -> &'a [u8]
    requires kept { AreIntact store.now.slots list.now }
    requires named { (named : RecordSet) × RefersTo (zones_in store.now.slots list.now) set named }
    ensures { (named : RecordSet) → RefersTo (zones_in store.now.slots list.now) set named
        → PolicyIsAt named at
        → IsPart result.now (take (length buffer.old) (from_policy named)) named }
{
    store.policy(set.slot, at, buffer)
}

/// The octets of the set that a reference names from a place on, up to the end of the 32 among which
/// the place is, lent.
pub fn piece<'a>(store: &'a SetSlots, list: &[StoredZone], set: SetRef, place: usize) -> &'a [u8]
    requires kept { AreIntact store.now.slots list.now }
    requires named { (named : RecordSet) × RefersTo (zones_in store.now.slots list.now) set named }
    ensures { (named : RecordSet) → RefersTo (zones_in store.now.slots list.now) set named
        → IsPart result.now (set_piece named place) named }
{
    store.piece(set.slot, place)
}

/// The same up to the end of the 32 behind those, in two parts, one behind the other.
pub fn pieces<'a>(
    store: &'a SetSlots,
    list: &[StoredZone],
    set: SetRef,
    place: usize,
) -> (&'a [u8], &'a [u8])
    requires kept { AreIntact store.now.slots list.now }
    requires named { (named : RecordSet) × RefersTo (zones_in store.now.slots list.now) set named }
    ensures { (named : RecordSet) → RefersTo (zones_in store.now.slots list.now) set named
        → IsPart (result.0.now ++ result.1.now) (set_pieces named place) named }
{
    store.pieces(set.slot, place)
}

/// What decides the health of the set that a reference names.
pub fn watch(store: &SetSlots, list: &[StoredZone], set: SetRef) -> Option<Watch>
    requires { AreIntact store.now.slots list.now }
    ensures { Watches (zones_in store.now.slots list.now) set result }
{
    if !is_named(store, list, set) {
        return None;
    }
    Some(store.watch(set.slot))
}

/// The name and the type of the target group of the alias that a reference names.
pub fn target(store: &SetSlots, list: &[StoredZone], set: SetRef) -> Option<(Name, RType)>
    requires { AreIntact store.now.slots list.now }
    ensures { Targets (zones_in store.now.slots list.now) set result }
{
    if !is_named(store, list, set) {
        return None;
    }
    store.target(set.slot)
}

/// Copies of the sets in these slots, in their order.
pub fn copies(
    alloc: Global,
    store: &SetSlots,
    zone: u32,
    order: &[u32],
) -> Result<Vec<RecordSet>, OutOfMemory>
    requires { IsOrder store.now.slots zone order.now }
    ensures { IfOk result (λ copies. copies.items
        ≡ sets_of (slotted_of store.now.slots zone order.now)) }
{
    let mut copies = Vec::with_capacity(alloc, order.len())?;
    for slot in order {
        copies.push(store.read(alloc, *slot)?)?;
    }
    Ok(copies)
}
