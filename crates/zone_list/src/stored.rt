//! A zone as it is stored: its number, its name and the slots of its sets.

ghost use Rattle.std.specs.Prelude.{◌≡◌, ◌≤◌, ◌+◌, [], length, map, IsOk, OnOk, vec_len};
ghost use Rattle.std.specs.Prelude.{vec_capacity};
ghost use Rattle.std.specs.List.{AllByRecursion};
ghost use Rattle.zone_changes.specs.Octets.{set_octets};
ghost use Rattle.zone_changes.specs.Sums.{sums_of};
ghost use Rattle.zone_list.specs.Changes.{CanChange, Changes, ref_in};
ghost use Rattle.zone_list.specs.Steps.{cells_in_all};
ghost use Rattle.zone_changes.specs.Orders.{IsOrder, OthersStay, slotted_of};

use crate::changing::{clear, come_all, leave_all, tell_all};
use crate::hints::{Hint, Hints};
use crate::refs::SetRef;
use octets::OutOfMemory;
use std::marker::Model;
use zone_changes::{Name, RecordSet, SetKey, SetSlots, Sums, no_sums};

/// A zone. Contracts see its number, its name, the slots of its sets in zone order, how many more
/// of them it can take without memory, and what is counted of them.
#[derive(Drop)]
pub struct StoredZone {
    // What a look-up reads comes first and stands side by side: in few lines of memory.
    id: u32,
    order: Vec<u32>,
    /// Where its names may stand.
    hints: Hints,
    /// What is counted of its sets.
    sums: Sums,
    apex: Name,
}

impl Model for StoredZone {
    ghost use Rattle.std.specs.Prelude.{◌-◌, vec_capacity, vec_len};
    ghost use Rattle.zone_list.specs.Kept.{Listed};

    ghost Value = { Listed };

    ghost view = { λ s. record {
      id = s.id;
      apex = s.apex;
      order = s.order.items;
      room = vec_capacity s.order - vec_len s.order;
      sums = s.sums;
    } };
}

impl StoredZone {
    /// A zone without sets.
    pub fn new(id: u32, apex: Name, order: Vec<u32>, hints: Hints) -> StoredZone
        requires { order.items ≡ [] }
        ensures id { result.id ≡ id }
        ensures apex { result.apex ≡ apex }
        ensures order { result.order ≡ [] }
        ensures room { result.room ≡ vec_capacity order }
        ensures sums { result.sums ≡ sums_of [] }
    {
        StoredZone {
            id,
            apex,
            order,
            sums: no_sums(),
            hints,
        }
    }

    /// Its number.
    pub fn id(&self) -> u32
        ensures { result ≡ self.now.id }
    {
        self.id
    }

    /// The name of its apex.
    pub fn apex(&self) -> &Name
        ensures { result.now ≡ self.now.apex }
    {
        &self.apex
    }

    /// The slots of its sets, in zone order.
    pub fn order(&self) -> &[u32]
        ensures { result.now ≡ self.now.order }
    {
        &self.order
    }

    /// How many octets its sets have, and how many of them are aliases, each modulo 2^64.
    pub fn sums(&self) -> Sums
        ensures { result ≡ self.now.sums }
    {
        self.sums
    }

    /// A place at which the sets of a name may stand: a hint, which may be wrong.
    pub fn place(&self, name: &Name) -> Option<usize> {
        self.hints.place(name.octets())
    }

    /// The same, with the cell in which the octets of the set there may begin.
    pub fn hint(&self, name: &Name) -> Option<Hint> {
        self.hints.find(name.octets())
    }

    /// A place near which the sets of a name may stand that has no hint of its own, by that of the
    /// name above it, or by words of the sets beside it.
    pub fn hint_above(&self, name: &Name) -> Option<usize> {
        let octets = name.octets();
        let apex = self.apex.octets().len();
        match self.hints.find_above(octets, apex) {
            Some(place) => Some(place),
            None => self.hints.find_beside(octets),
        }
    }

    /// Makes room for so many more sets. Room that was there stays, also where memory runs out.
    pub fn reserve(&mut self, more: usize) -> Result<(), OutOfMemory>
        ensures id { self.new.id ≡ self.old.id }
        ensures apex { self.new.apex ≡ self.old.apex }
        ensures order { self.new.order ≡ self.old.order }
        ensures sums { self.new.sums ≡ self.old.sums }
        ensures room { OnOk result (more ≤ self.new.room) }
        ensures kept { self.old.room ≤ self.new.room }
        ensures ready { more ≤ self.old.room → IsOk result }
    {
        self.order.reserve(more)?;
        self.hints.grow(self.order.len().saturating_add(more));
        Ok(())
    }

    /// These sets come, and the sets of these keys go unless one came for the key. Their references
    /// are told.
    pub fn change(
        &mut self,
        store: &mut SetSlots,
        remove: &[SetKey],
        add: &[RecordSet],
        buffer: &mut [u8],
        removed: &mut Vec<SetRef>,
        added: &mut Vec<SetRef>,
    )
        requires order { IsOrder store.old.slots self.old.id self.old.order }
        requires can { CanChange self.old.apex
            (slotted_of store.old.slots self.old.id self.old.order) remove.now add.now }
        requires none_removed { removed.old.items ≡ [] }
        requires none_added { added.old.items ≡ [] }
        requires removable { length remove.now ≤ vec_capacity removed.old }
        requires addable { length add.now ≤ vec_capacity added.old }
        requires buffer { AllByRecursion (λ set.
            length (set_octets set) ≤ length buffer.old) add.now }
        requires cells { cells_in_all add.now ≤ store.old.cells }
        requires slots { length add.now ≤ store.old.free }
        requires places { length add.now ≤ self.old.room }
        requires sums { self.old.sums
            ≡ sums_of (slotted_of store.old.slots self.old.id self.old.order) }
        ensures id { self.new.id ≡ self.old.id }
        ensures apex { self.new.apex ≡ self.old.apex }
        ensures order { IsOrder store.new.slots self.new.id self.new.order }
        ensures changes { Changes self.old.id (slotted_of store.old.slots self.old.id self.old.order)
            remove.now add.now removed.new.items added.new.items
            (slotted_of store.new.slots self.new.id self.new.order) }
        ensures others { OthersStay self.old.id store.old.slots store.new.slots }
        ensures slots { length store.new.slots ≡ length store.old.slots }
        ensures sums { self.new.sums
            ≡ sums_of (slotted_of store.new.slots self.new.id self.new.order) }
        ensures sets { store.new.free + length self.new.order
            ≡ store.old.free + length self.old.order }
    {
        come_all(
            store,
            self.id,
            &mut self.order,
            add,
            buffer,
            added,
            &mut self.sums,
            &mut self.hints,
        );
        let before = self.order.len();
        leave_all(
            store,
            self.id,
            &mut self.order,
            remove,
            add,
            added,
            removed,
            &mut self.sums,
        );
        let gone = before.wrapping_sub(self.order.len());
        self.hints.went(gone, before);
    }

    /// Makes its hints anew where they are old, or where that is put off, only if it pays at once.
    /// Nothing else changes.
    pub fn settle(&mut self, store: &SetSlots, put_off: bool)
        requires { IsOrder store.now.slots self.old.id self.old.order }
        ensures { self.new ≡ self.old }
    {
        let apex = self.apex.octets().len();
        self.hints
            .settle(store, self.id, &self.order, apex, put_off);
    }

    /// The zone goes, with all its sets. Their references are told, in zone order.
    pub fn close(mut self, store: &mut SetSlots, removed: &mut Vec<SetRef>)
        requires order { IsOrder store.old.slots self.id self.order }
        requires none { removed.old.items ≡ [] }
        requires room { length self.order ≤ vec_capacity removed.old }
        ensures told { removed.new.items
            ≡ map (ref_in self.id) (slotted_of store.old.slots self.id self.order) }
        ensures order { IsOrder store.new.slots self.id [] }
        ensures others { OthersStay self.id store.old.slots store.new.slots }
        ensures slots { length store.new.slots ≡ length store.old.slots }
        ensures sets { store.new.free ≡ store.old.free + length self.order }
    {
        tell_all(store, &self.order, self.id, removed);
        clear(store, self.id, &mut self.order);
    }
}
