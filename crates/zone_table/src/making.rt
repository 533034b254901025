//! Edits, made.

ghost use Rattle.std.specs.Prelude.{◌≡◌, ◌≤◌, ◌<◌, ◌+◌, ◌%◌, ◌^◌, [], length, slice_get, Some};
ghost use Rattle.std.specs.Prelude.{vec_capacity};
ghost use Rattle.std.specs.List.{AllByRecursion, insert};
ghost use Rattle.zone_list.specs.Octets.{set_octets};
ghost use Rattle.zone_list.specs.Sums.{sums_of};
ghost use Rattle.zone_list.specs.Kept.{AreIntact, Listed, zones_in};
ghost use Rattle.zone_list.specs.Steps.{cells_in_all};
ghost use Rattle.zone_list.specs.Zones.{placed_in};
ghost use Rattle.zone_table.specs.declared.edits.ZoneEdit.TheVariants.{Begin, End, Change};
ghost use Rattle.zone_table.specs.Apexes.{Notes};
ghost use Rattle.zone_finding.specs.Counted.{AreCounted};
ghost use Rattle.zone_table.specs.Edits.{Edits, IsAllowed, collections_after};
ghost use Rattle.zone_table.specs.Needs.{CanTake, IsReadyFor};

use crate::edits::{Ready, ZoneEdit};
use crate::refs::Delta;
use cidr_routing::Collections;
use zone_list::{
    Apexes, RecordSet, SetKey, SetRef, SetRefs, SetSlots, StoredZone, find_zone, first_from,
};

/// Notes the name of a zone that begins, and forgets that of one that ends.
pub fn note_name(apexes: &mut Apexes, made: &ZoneEdit)
    ensures { Notes apexes.old made.now apexes.new }
{
    match made {
        ZoneEdit::Begin { zone, name, .. } => apexes.come(*zone, name),
        ZoneEdit::End(zone) => apexes.go(*zone),
        ZoneEdit::Change { .. } => {}
        ZoneEdit::Collections(_) => {}
    }
}

/// Makes an edit that is ready.
pub fn make(
    store: &mut SetSlots,
    list: &mut Vec<StoredZone>,
    collections: &mut Collections,
    octets: &mut u64,
    ready: Ready,
) -> Delta
    requires kept { AreIntact store.old.slots list.old.items }
    requires counted { AreCounted store.old list.old.items octets.old }
    requires ready { IsReadyFor store.old list.old ready }
    ensures kept { AreIntact store.new.slots list.new.items }
    ensures counted { AreCounted store.new list.new.items octets.new }
    ensures slots { length store.new.slots ≡ length store.old.slots }
    ensures edits { Edits (zones_in store.old.slots list.old.items) ready.made
        (zones_in store.new.slots list.new.items) result }
    ensures collections { collections.new ≡ collections_after ready.made collections.old }
{
    let Ready {
        made,
        removed,
        added,
        places,
        hints,
        mut buffer,
        ..
    } = ready;
    match made {
        ZoneEdit::Begin { zone, name, sets } => {
            let opened = StoredZone::new(zone, name, places, hints);
            let add = sets.as_slice();
            let octets_of_set = buffer.as_mut_slice();
            let delta = open(
                store,
                list,
                octets,
                opened,
                add,
                octets_of_set,
                removed,
                added,
            );
            drop(sets);
            drop(buffer);
            delta
        }
        ZoneEdit::End(zone) => {
            drop(places);
            drop(hints);
            drop(buffer);
            close(store, list, octets, zone, removed, added)
        }
        ZoneEdit::Change { zone, remove, add } => {
            drop(places);
            drop(hints);
            let delta = change(
                store,
                list,
                octets,
                zone,
                remove.as_slice(),
                add.as_slice(),
                buffer.as_mut_slice(),
                removed,
                added,
            );
            drop(remove);
            drop(add);
            drop(buffer);
            delta
        }
        ZoneEdit::Collections(now) => {
            drop(places);
            drop(hints);
            drop(buffer);
            *collections = now;
            Delta {
                zone: 0,
                removed: SetRefs::from_vec(removed),
                added: SetRefs::from_vec(added),
            }
        }
    }
}

/// Opens a zone with these sets.
fn open(
    store: &mut SetSlots,
    list: &mut Vec<StoredZone>,
    octets: &mut u64,
    mut opened: StoredZone,
    add: &[RecordSet],
    buffer: &mut [u8],
    mut removed: Vec<SetRef>,
    mut added: Vec<SetRef>,
) -> Delta
    requires kept { AreIntact store.old.slots list.old.items }
    requires counted { AreCounted store.old list.old.items octets.old }
    requires allowed { IsAllowed (zones_in store.old.slots list.old.items)
        (Begin opened.id opened.apex add.now) }
    requires spare { length list.old.items < vec_capacity list.old }
    requires empty { opened.order ≡ [] }
    requires none { opened.sums ≡ sums_of [] }
    requires none_removed { removed.items ≡ [] }
    requires none_added { added.items ≡ [] }
    requires addable { length add.now ≤ vec_capacity added }
    requires places { length add.now ≤ opened.room }
    requires slots { length add.now ≤ store.old.free }
    requires cells { cells_in_all add.now ≤ store.old.cells }
    requires buffer { AllByRecursion (λ set. length (set_octets set) ≤ length buffer.old) add.now }
    ensures kept { AreIntact store.new.slots list.new.items }
    ensures counted { AreCounted store.new list.new.items octets.new }
    ensures slots { length store.new.slots ≡ length store.old.slots }
    ensures edits { Edits (zones_in store.old.slots list.old.items)
        (Begin opened.id opened.apex add.now) (zones_in store.new.slots list.new.items) result }
{
    let zone = opened.id();
    opened.change(store, &[], add, buffer, &mut removed, &mut added);
    *octets = recount(*octets, 0, opened.sums().octets);
    let place = first_from(list, zone);
    insert_zone(list, place, opened);
    Delta {
        zone,
        removed: SetRefs::from_vec(removed),
        added: SetRefs::from_vec(added),
    }
}

/// The count of all octets once those of a zone changed.
fn recount(octets: u64, before: u64, after: u64) -> u64
    ensures again { (result + before) % 2 ^ 64 ≡ (octets + after) % 2 ^ 64 }
    ensures few { result < 2 ^ 64 }
{
    octets.wrapping_sub(before).wrapping_add(after)
}

/// How many octets the sets of the zone at a place have, as they are counted.
fn octets_at(list: &Vec<StoredZone>, place: usize) -> u64
    requires { place < length list.now.items }
    ensures { (its : Listed) → slice_get list.now.items place ≡ Some its
        → result ≡ its.sums.octets }
{
    list[place].sums().octets
}

/// Puts a zone before the place.
fn insert_zone(list: &mut Vec<StoredZone>, place: usize, zone: StoredZone)
    requires place { place ≤ length list.old.items }
    requires room { length list.old.items < vec_capacity list.old }
    ensures { list.new.items ≡ insert list.old.items place zone }
{
    match list.insert(place, zone) {
        Ok(()) => {}
        Err(_) => unreachable!(),
    }
}

/// Closes a zone.
fn close(
    store: &mut SetSlots,
    list: &mut Vec<StoredZone>,
    octets: &mut u64,
    zone: u32,
    mut removed: Vec<SetRef>,
    added: Vec<SetRef>,
) -> Delta
    requires kept { AreIntact store.old.slots list.old.items }
    requires counted { AreCounted store.old list.old.items octets.old }
    requires allowed { IsAllowed (zones_in store.old.slots list.old.items) (End zone) }
    requires none_removed { removed.items ≡ [] }
    requires none_added { added.items ≡ [] }
    requires removable { length (placed_in (zones_in store.old.slots list.old.items) zone)
        ≤ vec_capacity removed }
    ensures kept { AreIntact store.new.slots list.new.items }
    ensures counted { AreCounted store.new list.new.items octets.new }
    ensures slots { length store.new.slots ≡ length store.old.slots }
    ensures edits { Edits (zones_in store.old.slots list.old.items) (End zone)
        (zones_in store.new.slots list.new.items) result }
{
    let Some(place) = find_zone(list, zone) else {
        unreachable!()
    };
    let closed = list.remove(place);
    *octets = recount(*octets, closed.sums().octets, 0);
    closed.close(store, &mut removed);
    Delta {
        zone,
        removed: SetRefs::from_vec(removed),
        added: SetRefs::from_vec(added),
    }
}

/// Changes the sets of a zone.
fn change(
    store: &mut SetSlots,
    list: &mut Vec<StoredZone>,
    octets: &mut u64,
    zone: u32,
    remove: &[SetKey],
    add: &[RecordSet],
    buffer: &mut [u8],
    mut removed: Vec<SetRef>,
    mut added: Vec<SetRef>,
) -> Delta
    requires kept { AreIntact store.old.slots list.old.items }
    requires counted { AreCounted store.old list.old.items octets.old }
    requires allowed { IsAllowed (zones_in store.old.slots list.old.items)
        (Change zone remove.now add.now) }
    requires none_removed { removed.items ≡ [] }
    requires none_added { added.items ≡ [] }
    requires removable { length remove.now ≤ vec_capacity removed }
    requires addable { length add.now ≤ vec_capacity added }
    requires places { CanTake list.old.items zone (length add.now) }
    requires slots { length add.now ≤ store.old.free }
    requires cells { cells_in_all add.now ≤ store.old.cells }
    requires buffer { AllByRecursion (λ set. length (set_octets set) ≤ length buffer.old) add.now }
    ensures kept { AreIntact store.new.slots list.new.items }
    ensures counted { AreCounted store.new list.new.items octets.new }
    ensures slots { length store.new.slots ≡ length store.old.slots }
    ensures edits { Edits (zones_in store.old.slots list.old.items)
        (Change zone remove.now add.now) (zones_in store.new.slots list.new.items) result }
{
    let Some(place) = find_zone(list, zone) else {
        unreachable!()
    };
    let before = octets_at(list, place);
    list[place].change(store, remove, add, buffer, &mut removed, &mut added);
    *octets = recount(*octets, before, octets_at(list, place));
    Delta {
        zone,
        removed: SetRefs::from_vec(removed),
        added: SetRefs::from_vec(added),
    }
}

/// Makes the hints of a zone anew where they are old, or where that is put off, only if it pays at
/// once.
pub fn settle(store: &SetSlots, list: &mut [StoredZone], zone: u32, put_off: bool)
    requires { AreIntact store.now.slots list.old }
    ensures { list.new ≡ list.old }
{
    if let Some(place) = find_zone(list, zone) {
        list[place].settle(store, put_off);
    }
}

/// Makes the hints of all zones anew that are old.
pub fn settle_all(store: &SetSlots, list: &mut [StoredZone])
    requires { AreIntact store.now.slots list.old }
    ensures { list.new ≡ list.old }
{
    for place in 0..list.len() {
        let zone = list[place].id();
        settle(store, list, zone, false);
    }
}
