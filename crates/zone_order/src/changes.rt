//! Sets put into a zone, replaced in it, and taken away from it.

ghost use Rattle.std.specs.Prelude.{ℕ, List, IsOk, OnOk, ◌≡◌, ◌≤◌, ◌<◌, ◌+◌, ◌-◌, length};
ghost use Rattle.std.specs.Prelude.{slice_get};
ghost use Rattle.std.specs.Prelude.{slice_set, Some};
ghost use Rattle.std.specs.Prelude.{vec_len, vec_capacity};
ghost use Rattle.std.specs.List.{insert, remove};
ghost use Rattle.set_store.specs.Cells.{cells_for};
ghost use Rattle.set_store.specs.SetsOfRecordSet.{key_of};
ghost use Rattle.set_store.specs.RecordSetRecord.{RecordSet};
ghost use Rattle.set_store.specs.Octets.{set_octets};
ghost use Rattle.set_store.specs.Found.{FindsAt, FindsNone};
ghost use Rattle.set_store.specs.Stored.{IsSpelling, Spells};
ghost use Rattle.zone_order.specs.Orders.{IsOrder, OthersStay, slotted_of, set_in};
ghost use Rattle.set_store.specs.Slotted.{IsPut, IsSlotAt, IsTakenAt, Slotted, sets_of};

use crate::views::slot_at;
use set_store::{OutOfMemory, SetSlots, placed_rise};

/// Makes room in the store for so many more sets, of so many cells in all. The sets of all zones
/// stay in their slots, and room that was there stays, also where memory runs out.
pub fn make_room(store: &mut SetSlots, slots: usize, cells: usize) -> Result<(), OutOfMemory>
    ensures stay { (zone slot : ℕ) → set_in store.new.slots zone slot ≡ set_in store.old.slots zone
        slot }
    ensures orders { (zone : ℕ) (order : List ℕ) → IsOrder store.old.slots zone order
        → IsOrder store.new.slots zone order }
    ensures slots { length store.new.slots + store.old.free
        ≡ length store.old.slots + store.new.free }
    ensures cells { store.old.cells ≤ store.new.cells }
    ensures free { store.old.free ≤ store.new.free }
    ensures room { OnOk result ((slots ≤ store.new.free) × (cells ≤ store.new.cells)) }
    ensures ready { slots ≤ store.old.free → cells ≤ store.old.cells → IsOk result }
{
    store.reserve(slots, cells)
}

/// Puts a set, told by its octets, before a place of a zone, and answers its slot.
pub fn put_at(
    store: &mut SetSlots,
    zone: u32,
    order: &mut Vec<u32>,
    place: usize,
    octets: &[u8],
) -> u32
    requires order { IsOrder store.old.slots zone order.old.items }
    requires spelling { IsSpelling octets.now }
    requires absent { (set : RecordSet) → Spells octets.now set
        → FindsNone (sets_of (slotted_of store.old.slots zone order.old.items)) (key_of set) place }
    requires cells { cells_for (length octets.now) ≤ store.old.cells }
    requires slot { 0 < store.old.free }
    requires room { vec_len order.old < vec_capacity order.old }
    ensures order { IsOrder store.new.slots zone order.new.items }
    ensures put { (set : RecordSet) → Spells octets.now set
        → IsPut (slotted_of store.old.slots zone order.old.items)
        (record { slot = result; set = set })
        (slotted_of store.new.slots zone order.new.items) }
    ensures others { OthersStay zone store.old.slots store.new.slots }
    ensures slots { length store.new.slots ≡ length store.old.slots }
    ensures cells { store.new.cells ≡ store.old.cells - cells_for (length octets.now) }
    ensures free { store.new.free + 1 ≡ store.old.free }
    ensures length { vec_len order.new ≡ vec_len order.old + 1 }
    ensures room { vec_capacity order.new ≡ vec_capacity order.old }
{
    placed_rise();
    let slot = store.put(zone, octets);
    insert_slot(order, place, slot);
    slot
}

/// Takes away the set at a place of a zone, and answers the slot that it had.
pub fn take_at(store: &mut SetSlots, zone: u32, order: &mut Vec<u32>, place: usize) -> u32
    requires order { IsOrder store.old.slots zone order.old.items }
    requires place { place < length order.old.items }
    ensures order { IsOrder store.new.slots zone order.new.items }
    ensures taken { IsTakenAt (slotted_of store.old.slots zone order.old.items) place result
        (slotted_of store.new.slots zone order.new.items) }
    ensures others { OthersStay zone store.old.slots store.new.slots }
    ensures slots { length store.new.slots ≡ length store.old.slots }
    ensures cells { (was : Slotted)
        → slice_get (slotted_of store.old.slots zone order.old.items) place ≡ Some was
        → store.new.cells ≡ store.old.cells + cells_for (length (set_octets was.set)) }
    ensures free { store.new.free ≡ store.old.free + 1 }
    ensures length { vec_len order.new + 1 ≡ vec_len order.old }
    ensures room { vec_capacity order.new ≡ vec_capacity order.old }
{
    let slot = remove_slot(order, place);
    store.take(slot);
    slot
}

/// Gives the set at a place of a zone other octets, of a set with its key, and answers its slot.
pub fn replace_at(
    store: &mut SetSlots,
    zone: u32,
    order: &[u32],
    place: usize,
    octets: &[u8],
) -> u32
    requires order { IsOrder store.old.slots zone order.now }
    requires spelling { IsSpelling octets.now }
    requires there { (set : RecordSet) → Spells octets.now set
        → FindsAt (sets_of (slotted_of store.old.slots zone order.now)) (key_of set) place }
    requires cells { cells_for (length octets.now) ≤ store.old.cells }
    ensures order { IsOrder store.new.slots zone order.now }
    ensures slot { slice_get order.now place ≡ Some result }
    ensures replaced { (set : RecordSet) → Spells octets.now set
        → slotted_of store.new.slots zone order.now
        ≡ slice_set (slotted_of store.old.slots zone order.now) place
        (record { slot = result; set = set }) }
    ensures others { OthersStay zone store.old.slots store.new.slots }
    ensures slots { length store.new.slots ≡ length store.old.slots }
    ensures cells { (was : Slotted)
        → slice_get (slotted_of store.old.slots zone order.now) place ≡ Some was
        → store.new.cells + cells_for (length octets.now)
        ≡ store.old.cells + cells_for (length (set_octets was.set)) }
    ensures free { store.new.free ≡ store.old.free }
{
    let slot = slot_at(order, place);
    store.replace(slot, octets);
    slot
}

/// Puts a slot before a place.
fn insert_slot(order: &mut Vec<u32>, place: usize, slot: u32)
    requires place { place ≤ length order.old.items }
    requires room { vec_len order.old < vec_capacity order.old }
    ensures items { order.new.items ≡ insert order.old.items place slot }
    ensures length { vec_len order.new ≡ vec_len order.old + 1 }
    ensures capacity { vec_capacity order.new ≡ vec_capacity order.old }
{
    match order.insert(place, slot) {
        Ok(()) => {}
        Err(_) => unreachable!(),
    }
}

/// Takes away the slot at a place.
fn remove_slot(order: &mut Vec<u32>, place: usize) -> u32
    requires { place < length order.old.items }
    ensures slot { slice_get order.old.items place ≡ Some result }
    ensures items { order.new.items ≡ remove order.old.items place }
    ensures length { vec_len order.new + 1 ≡ vec_len order.old }
    ensures capacity { vec_capacity order.new ≡ vec_capacity order.old }
{
    order.remove(place)
}
