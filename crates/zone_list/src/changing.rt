//! Sets that come into a zone, and sets that go from it.

ghost use Rattle.std.specs.Prelude.{◌≡◌, ◌≤◌, ◌<◌, ◌+◌, [], length, map, slice_get, Some};
ghost use Rattle.std.specs.Prelude.{IsTrue, ◌↔◌, vec_len, vec_capacity};
ghost use Rattle.std.specs.List.{AllByRecursion};
ghost use Rattle.zone_changes.specs.Sets.{key_of};
ghost use Rattle.zone_changes.specs.Octets.{HasSpelling, set_octets};
ghost use Rattle.zone_changes.specs.Sums.{sums_of};
ghost use Rattle.zone_changes.specs.Placing.{IsThere};
ghost use Rattle.zone_changes.specs.Slotted.{sets_of};
ghost use Rattle.zone_list.specs.Changes.{AreThere, ref_in};
ghost use Rattle.zone_list.specs.Steps.{cells_in_all, Comings, FoundBetween};
ghost use Rattle.zone_list.specs.Steps.{GoesUnlessCome, Goings, PlaceOrNone};
ghost use Rattle.zone_changes.specs.Orders.{IsOrder, OthersStay, slotted_of};

use crate::hints::Hints;
use crate::refs::SetRef;
use zone_changes::{
    RecordSet, SetKey, SetSlots, Sums, come, go, key_cmp, keys_are_ordered, of_zone, take_at,
};

/// These sets come into a zone, and their references are told. Hints tell where the first of them
/// may stand, and are told where each does; where they come in zone order, each other one is looked
/// for behind the one before.
pub fn come_all(
    store: &mut SetSlots,
    zone: u32,
    order: &mut Vec<u32>,
    add: &[RecordSet],
    buffer: &mut [u8],
    added: &mut Vec<SetRef>,
    sums: &mut Sums,
    hints: &mut Hints,
)
    requires order { IsOrder store.old.slots zone order.old.items }
    requires spelled { AllByRecursion HasSpelling add.now }
    requires buffer { AllByRecursion (λ set. length (set_octets set) ≤ length buffer.old) add.now }
    requires cells { cells_in_all add.now ≤ store.old.cells }
    requires slots { length add.now ≤ store.old.free }
    requires places { vec_len order.old + length add.now ≤ vec_capacity order.old }
    requires none { added.old.items ≡ [] }
    requires refs { length add.now ≤ vec_capacity added.old }
    requires sums { sums.old ≡ sums_of (slotted_of store.old.slots zone order.old.items) }
    ensures order { IsOrder store.new.slots zone order.new.items }
    ensures comes { Comings zone (slotted_of store.old.slots zone order.old.items) add.now
        added.new.items (slotted_of store.new.slots zone order.new.items) }
    ensures others { OthersStay zone store.old.slots store.new.slots }
    ensures slots { length store.new.slots ≡ length store.old.slots }
    ensures sums { sums.new ≡ sums_of (slotted_of store.new.slots zone order.new.items) }
    ensures sets { store.new.free + length order.new.items
        ≡ store.old.free + length order.old.items }
{
    let mut near = place_of_first(hints, add);
    for set in add {
        let before = order.len();
        let slot = come(store, zone, order, set, buffer, sums, &mut near);
        of_zone(store, zone, order);
        added.push_reserved(SetRef { zone, slot });
        let cell = store.cell_of(slot);
        tell(hints, set, near, cell, before, order.len());
    }
}

/// A place at which the first of these sets may stand: a hint, which may be wrong.
fn place_of_first(hints: &Hints, sets: &[RecordSet]) -> Option<usize> {
    match sets.first() {
        Some(set) => match hints.place(set.name.octets()) {
            Some(place) => Some(place),
            None => hints.find_beside(set.name.octets()),
        },
        None => None,
    }
}

/// Tells hints of a set that came into a cell, where so many sets were before and so many are now:
/// in front of a place, or where there are no more in place of the one with its key.
fn tell(
    hints: &mut Hints,
    set: &RecordSet,
    behind: Option<usize>,
    cell: u32,
    before: usize,
    count: usize,
) {
    if count > before {
        note(hints, set, behind, cell, count);
    } else {
        hints.gave_way(set.name.octets(), cell);
    }
}

/// Tells hints of a set that came in front of a place and into a cell, among so many sets.
fn note(hints: &mut Hints, set: &RecordSet, behind: Option<usize>, cell: u32, count: usize) {
    if let Some(next) = behind {
        hints.came(
            set.name.octets(),
            next.saturating_sub(1),
            cell,
            count.saturating_sub(next),
        );
    }
}

/// The sets of these keys go from a zone, but for those that came for one. Their references are
/// told.
pub fn leave_all(
    store: &mut SetSlots,
    zone: u32,
    order: &mut Vec<u32>,
    keys: &[SetKey],
    add: &[RecordSet],
    added: &[SetRef],
    removed: &mut Vec<SetRef>,
    sums: &mut Sums,
)
    requires order { IsOrder store.old.slots zone order.old.items }
    requires there { AreThere (sets_of (slotted_of store.old.slots zone order.old.items)) keys.now }
    requires told { length added.now ≡ length add.now }
    requires none { removed.old.items ≡ [] }
    requires room { length keys.now ≤ vec_capacity removed.old }
    requires sums { sums.old ≡ sums_of (slotted_of store.old.slots zone order.old.items) }
    ensures order { IsOrder store.new.slots zone order.new.items }
    ensures leaves { Goings zone add.now added.now
        (slotted_of store.old.slots zone order.old.items) keys.now removed.new.items
        (slotted_of store.new.slots zone order.new.items) }
    ensures others { OthersStay zone store.old.slots store.new.slots }
    ensures slots { length store.new.slots ≡ length store.old.slots }
    ensures sums { sums.new ≡ sums_of (slotted_of store.new.slots zone order.new.items) }
    ensures sets { store.new.free + length order.new.items
        ≡ store.old.free + length order.old.items }
{
    let mut hint = 0;
    for key in keys {
        let at = place_in(add, key, hint);
        let slot = leave(store, zone, order, key, add, added, at, sums);
        removed.push_reserved(SetRef { zone, slot });
        hint = behind(at, hint);
    }
}

/// The place behind one that was found.
fn behind(at: Option<usize>, hint: usize) -> usize {
    match at {
        Some(at) => at.wrapping_add(1),
        None => hint,
    }
}

/// The set of a key goes from a zone, unless one came for it, at this place. Its slot is told.
fn leave(
    store: &mut SetSlots,
    zone: u32,
    order: &mut Vec<u32>,
    key: &SetKey,
    add: &[RecordSet],
    added: &[SetRef],
    at: Option<usize>,
    sums: &mut Sums,
) -> u32
    requires order { IsOrder store.old.slots zone order.old.items }
    requires there { IsThere (sets_of (slotted_of store.old.slots zone order.old.items)) key.now }
    requires at { PlaceOrNone add.now key.now at }
    requires told { length added.now ≡ length add.now }
    requires sums { sums.old ≡ sums_of (slotted_of store.old.slots zone order.old.items) }
    ensures order { IsOrder store.new.slots zone order.new.items }
    ensures leaves { GoesUnlessCome add.now added.now
        (slotted_of store.old.slots zone order.old.items) key.now result
        (slotted_of store.new.slots zone order.new.items) }
    ensures others { OthersStay zone store.old.slots store.new.slots }
    ensures slots { length store.new.slots ≡ length store.old.slots }
    ensures sums { sums.new ≡ sums_of (slotted_of store.new.slots zone order.new.items) }
    ensures sets { store.new.free + length order.new.items
        ≡ store.old.free + length order.old.items }
{
    match at {
        Some(at) => added[at].slot,
        None => go(store, zone, order, key, sums),
    }
}

/// The place of the set of a key among these, looked for from a place on and then in front of it.
fn place_in(add: &[RecordSet], key: &SetKey, hint: usize) -> Option<usize>
    ensures { PlaceOrNone add.now key.now result }
{
    let middle = hint.min(add.len());
    match first_of(add, key, middle, add.len()) {
        Some(at) => Some(at),
        None => first_of(add, key, 0, middle),
    }
}

/// The first place between two at which the set of a key stands.
fn first_of(add: &[RecordSet], key: &SetKey, from: usize, to: usize) -> Option<usize>
    requires order { from ≤ to }
    requires within { to ≤ length add.now }
    ensures { FoundBetween add.now key.now from to result }
{
    for at in from..to {
        if has_key(&add[at], key) {
            return Some(at);
        }
    }
    None
}

/// Whether a set has the key.
fn has_key(set: &RecordSet, key: &SetKey) -> bool
    ensures { IsTrue result ↔ (key_of set.now ≡ key.now) }
{
    keys_are_ordered();
    if !set.name.is_same(&key.name) {
        return false;
    }
    key_cmp(&set.key(), key).is_eq()
}

/// Tells the references of the sets in these slots, in their order.
pub fn tell_all(store: &SetSlots, order: &[u32], zone: u32, told: &mut Vec<SetRef>)
    requires none { told.old.items ≡ [] }
    requires room { length order.now ≤ vec_capacity told.old }
    ensures { told.new.items ≡ map (ref_in zone) (slotted_of store.now.slots zone order.now) }
{
    for slot in order {
        told.push_reserved(SetRef { zone, slot: *slot });
    }
}

/// All sets of a zone go, the last one first.
pub fn clear(store: &mut SetSlots, zone: u32, order: &mut Vec<u32>)
    requires { IsOrder store.old.slots zone order.old.items }
    ensures order { IsOrder store.new.slots zone [] }
    ensures others { OthersStay zone store.old.slots store.new.slots }
    ensures slots { length store.new.slots ≡ length store.old.slots }
    ensures sets { store.new.free ≡ store.old.free + length order.old.items }
{
    while !order.is_empty() {
        let last = order.len() - 1;
        take_at(store, zone, order, last);
    }
}
