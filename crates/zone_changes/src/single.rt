//! One set that comes, one that goes, and the slot of a key.

ghost use Rattle.std.specs.Prelude.{◌≡◌, ◌≤◌, ◌<◌, ◌+◌, length, vec_len, vec_capacity};
ghost use Rattle.zone_order.specs.Cells.{cells_for};
ghost use Rattle.zone_order.specs.RecordSetRecord.{RecordSet};
ghost use Rattle.zone_order.specs.Octets.{HasSpelling, set_octets};
ghost use Rattle.zone_order.specs.Found.{Finds};
ghost use Rattle.zone_order.specs.Stored.{Spells};
ghost use Rattle.zone_changes.specs.Coming.{Comes, cells_of};
ghost use Rattle.zone_changes.specs.Sums.{sums_of};
ghost use Rattle.zone_order.specs.Placing.{IsThere};
ghost use Rattle.zone_order.specs.Orders.{IsOrder, OthersStay, slotted_of};
ghost use Rattle.zone_order.specs.Slotted.{IsSlotAt, IsRemoved, sets_of};

use crate::sums::{Sums, with_set, without_at};
use octets::front;
use zone_order::{
    RecordSet, SetKey, SetSlots, fill_set, find, find_near, one_spelling, put_at, replace_at,
    sets_in_order, take_at, well_formed,
};

/// A set comes into a zone, and its slot is told. The buffer has room for its octets.
///
/// The hint is where it may stand, and then where the next one does if it comes right behind.
pub fn come(
    store: &mut SetSlots,
    zone: u32,
    order: &mut Vec<u32>,
    set: &RecordSet,
    buffer: &mut [u8],
    sums: &mut Sums,
    hint: &mut Option<usize>,
) -> u32
    requires order { IsOrder store.old.slots zone order.old.items }
    requires spelled { HasSpelling set.now }
    requires buffer { length (set_octets set.now) ≤ length buffer.old }
    requires cells { cells_for (length (set_octets set.now)) ≤ store.old.cells }
    requires slot { 0 < store.old.free }
    requires room { vec_len order.old < vec_capacity order.old }
    requires sums { sums.old ≡ sums_of (slotted_of store.old.slots zone order.old.items) }
    ensures order { IsOrder store.new.slots zone order.new.items }
    ensures comes { Comes (slotted_of store.old.slots zone order.old.items)
        (record { slot = result; set = set.now })
        (slotted_of store.new.slots zone order.new.items) }
    ensures others { OthersStay zone store.old.slots store.new.slots }
    ensures slots { length store.new.slots ≡ length store.old.slots }
    ensures cells { store.new.cells + cells_of (slotted_of store.new.slots zone order.new.items)
        ≡ store.old.cells + cells_of (slotted_of store.old.slots zone order.old.items) }
    ensures enough { store.old.cells ≤ store.new.cells + cells_for (length (set_octets set.now)) }
    ensures free { store.old.free ≤ store.new.free + 1 }
    ensures sums { sums.new ≡ sums_of (slotted_of store.new.slots zone order.new.items) }
    ensures sets { store.new.free + vec_len order.new ≡ store.old.free + vec_len order.old }
    ensures length { vec_len order.new ≤ vec_len order.old + 1 }
    ensures room { vec_capacity order.new ≡ vec_capacity order.old }
    ensures buffer { length buffer.new ≡ length buffer.old }
{
    one_spelling();
    let octets = spell(set, buffer);
    let key = set.key();
    let counted = with_set(*sums, octets.len(), set);
    match place_near(store, zone, order, &key, hint) {
        Ok(place) => {
            *sums = without_at(counted, store, zone, order, place);
            replace_at(store, zone, order, place, octets)
        }
        Err(place) => {
            *sums = counted;
            put_at(store, zone, order, place, octets)
        }
    }
}

/// The set of a key goes from a zone, and the slot that it had is told.
pub fn go(
    store: &mut SetSlots,
    zone: u32,
    order: &mut Vec<u32>,
    key: &SetKey,
    sums: &mut Sums,
) -> u32
    requires order { IsOrder store.old.slots zone order.old.items }
    requires sums { sums.old ≡ sums_of (slotted_of store.old.slots zone order.old.items) }
    requires there { IsThere (sets_of (slotted_of store.old.slots zone order.old.items)) key.now }
    ensures order { IsOrder store.new.slots zone order.new.items }
    ensures goes { IsRemoved (slotted_of store.old.slots zone order.old.items) key.now result
        (slotted_of store.new.slots zone order.new.items) }
    ensures others { OthersStay zone store.old.slots store.new.slots }
    ensures slots { length store.new.slots ≡ length store.old.slots }
    ensures cells { store.new.cells + cells_of (slotted_of store.new.slots zone order.new.items)
        ≡ store.old.cells + cells_of (slotted_of store.old.slots zone order.old.items) }
    ensures free { store.new.free ≡ store.old.free + 1 }
    ensures sums { sums.new ≡ sums_of (slotted_of store.new.slots zone order.new.items) }
    ensures length { vec_len order.new + 1 ≡ vec_len order.old }
    ensures room { vec_capacity order.new ≡ vec_capacity order.old }
{
    match place_of(store, zone, order, key) {
        Ok(place) => {
            *sums = without_at(*sums, store, zone, order, place);
            take_at(store, zone, order, place)
        }
        Err(_) => unreachable!(),
    }
}

/// The place of the set of a key, or that at which it would stand.
fn place_of(store: &SetSlots, zone: u32, order: &Vec<u32>, key: &SetKey) -> Result<usize, usize>
    requires { IsOrder store.now.slots zone order.now.items }
    ensures { Finds (sets_of (slotted_of store.now.slots zone order.now.items)) key.now result }
{
    find(&sets_in_order(store, zone, order), key)
}

/// The same with a hint, which becomes the place behind.
fn place_near(
    store: &SetSlots,
    zone: u32,
    order: &Vec<u32>,
    key: &SetKey,
    hint: &mut Option<usize>,
) -> Result<usize, usize>
    requires { IsOrder store.now.slots zone order.now.items }
    ensures { Finds (sets_of (slotted_of store.now.slots zone order.now.items)) key.now result }
{
    let found = find_near(&sets_in_order(store, zone, order), key, *hint);
    *hint = Some(behind(&found));
    found
}

/// The place behind one that was found.
fn behind(found: &Result<usize, usize>) -> usize {
    match found {
        Ok(place) | Err(place) => place.wrapping_add(1),
    }
}

/// The octets of a set, at the front of a buffer.
fn spell<'a>(set: &RecordSet, buffer: &'a mut [u8]) -> &'a [u8]
    requires spelled { HasSpelling set.now }
    requires room { length (set_octets set.now) ≤ length buffer.old }
    ensures spells { Spells result.now set.now }
{
    well_formed(set);
    let len = fill_set(set, buffer, 0);
    front(buffer, len)
}
