//! A zone's sets, looked at by their places.

ghost use Rattle.std.specs.Prelude.{◌≡◌, ◌<◌, length, slice_get, Some};
ghost use Rattle.set_store.specs.RecordSetRecord.{RecordSet};
ghost use Rattle.zone_order.specs.Orders.{IsOrder, slotted_of};
ghost use Rattle.set_store.specs.Slotted.{AreOfZone, IsSlotAt, sets_of};

use set_store::{NO_CELL, Name, RType, Scratch, SetList, SetSlots, Stop};
use std::marker::Model;

/// The sets of a zone, in its order.
#[derive(Drop)]
pub struct ZoneSets<'a> {
    store: &'a SetSlots,
    zone: u32,
    order: &'a [u32],
    /// The cell in which the octets of the set that is looked at first may begin: a hint.
    cell: u32,
}

impl<'a> Model for ZoneSets<'a> {
    ghost use Rattle.std.specs.Prelude.{List};
    ghost use Rattle.std.specs.List.{AllByRecursion};
    ghost use Rattle.set_store.specs.RecordSetRecord.{RecordSet};
    ghost use Rattle.zone_order.specs.Orders.{HasSet, slotted_of, set_in};
    ghost use Rattle.set_store.specs.Slotted.{sets_of};

    ghost Value = { List RecordSet };

    ghost view = { λ o. sets_of (slotted_of o.store.now.slots o.zone o.order.now) };

    ghost invariant = { λ o. AllByRecursion (λ k. HasSet
        (set_in o.store.now.slots o.zone) k) o.order.now };
}

/// The sets of a zone, whose slots these are.
pub fn sets_in_order<'a>(store: &'a SetSlots, zone: u32, order: &'a [u32]) -> ZoneSets<'a>
    requires { IsOrder store.now.slots zone order.now }
    ensures { result ≡ sets_of (slotted_of store.now.slots zone order.now) }
{
    sets_near(store, zone, order, NO_CELL)
}

/// The same with the cell in which the octets of the set that is looked at first may begin: a hint,
/// which may be wrong.
#[inline(always)]
pub fn sets_near<'a>(store: &'a SetSlots, zone: u32, order: &'a [u32], cell: u32) -> ZoneSets<'a>
    requires { IsOrder store.now.slots zone order.now }
    ensures { result ≡ sets_of (slotted_of store.now.slots zone order.now) }
{
    ZoneSets {
        store,
        zone,
        order,
        cell,
    }
}

/// The sets of a zone stand in zone order, each in a slot of its own; it does nothing.
pub fn of_zone(store: &SetSlots, zone: u32, order: &[u32])
    requires { IsOrder store.now.slots zone order.now }
    ensures { AreOfZone (slotted_of store.now.slots zone order.now) }
{}

impl<'a> ZoneSets<'a> {
    /// Holds the set at a place in a scratch, in place of the set that it held, and takes no
    /// memory.
    pub fn hold(&self, place: usize, into: &mut Scratch)
        requires { place < length self.now }
        ensures { (set : RecordSet) → slice_get self.now place ≡ Some set → into.new ≡ Some set }
    {
        self.store.hold(slot_at(self.order, place), into);
    }
}

impl<'a> SetList for ZoneSets<'a> {
    ghost sets = { λ sets. sets };

    fn count(&self) -> usize {
        self.order.len()
    }

    fn is_before(&self, place: usize, stop: &Stop) -> bool {
        self.store.is_before(slot_at(self.order, place), stop)
    }

    fn is_below(&self, place: usize, name: &Name) -> bool {
        self.store.is_below(slot_at(self.order, place), name)
    }

    fn is_of(&self, place: usize, name: &Name, rtype: RType) -> bool {
        self.store.is_of(slot_at(self.order, place), name, rtype)
    }

    #[inline(always)]
    fn type_at(&self, place: usize, name: &Name) -> Option<u16> {
        self.store
            .type_near(slot_at(self.order, place), name, self.cell)
    }

    fn are_told_apart(&self, place: usize, other: usize) -> bool {
        self.store
            .are_told_apart(slot_at(self.order, place), slot_at(self.order, other))
    }

    fn past_name(&self, place: usize) -> usize {
        self.store.past_name(self.order, place)
    }
}

/// The slot at a place.
pub(crate) fn slot_at(order: &[u32], place: usize) -> u32
    requires { place < length order.now }
    ensures { slice_get order.now place ≡ Some result }
{
    order[place]
}
