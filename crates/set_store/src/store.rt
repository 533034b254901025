//! A region of octets and the slots of the sets that stand in it.

ghost use Rattle.std.specs.Prelude.{◌≡◌, ◌≢◌, ◌≤◌, ◌<◌, ◌+◌, ◌-◌, ◌^◌, ◌++◌, ℕ, [], length, Some};
ghost use Rattle.std.specs.Prelude.{None, slice_get, slice_set, IsOk, MatchResult, max};
ghost use Rattle.set_scratch.specs.Cells.{cells_for};
ghost use Rattle.set_search.specs.RecordSetRecord.{RecordSet};
ghost use Rattle.set_scratch.specs.Octets.{set_octets};
ghost use Rattle.set_store.specs.Packed.{Slot};
ghost use Rattle.set_store.specs.Stored.{IsKept, IsSpelling, IsInUse, IsVacant, Kept, Spells};
ghost use Rattle.set_store.specs.Stored.{nothing};

use crate::growth::{give_slots, make_room};
use crate::slots::Slot;
use crate::tags::tag_in;
use octets::OutOfMemory;
use set_scratch::{Handle, Region, written_reads_back};
use std::alloc::Global;
use std::marker::Model;

/// The most slots: there is a number for each, and one for none.
const MOST_SLOTS: usize = 0xffff_ffff;

/// Sets by slots. Contracts see what is kept in each slot, and how much can be put without memory.
#[derive(Drop)]
pub struct SetSlots {
    pub(crate) region: Region,
    pub(crate) slots: Vec<Slot>,
    /// The first free slot, where there is one.
    free: u32,
    /// How many slots are free.
    spare: usize,
}

impl Model for SetSlots {
    ghost use Rattle.std.specs.Prelude.{map};
    ghost use Rattle.set_store.specs.Index.{IsIntact, kept_in};
    ghost use Rattle.set_store.specs.Packed.{Slot};
    ghost use Rattle.set_store.specs.Stored.{Slots};

    ghost Value = { Slots };

    ghost view = { λ s. record {
      slots = map
          (kept_in s.region.held) s.slots.items;
      cells = s.region.spare;
      free = s.spare;
    } };

    ghost invariant = { λ s. IsIntact s.region.held s.slots.items s.free s.spare };
}

impl SetSlots {
    /// A store that holds nothing.
    pub fn new(alloc: Global) -> SetSlots
        ensures { result ≡ record { slots = []; cells = 0; free = 0 } }
    {
        SetSlots {
            region: Region::new(alloc),
            slots: Vec::new(alloc),
            free: 0,
            spare: 0,
        }
    }

    /// How many slots there are, free or not: each slot that is in use is below it.
    pub fn slots(&self) -> usize
        ensures count { result ≡ length self.now.slots }
        ensures few { result < 2 ^ 32 }
    {
        self.slots.len()
    }

    /// How many slots are free: how many sets can be put without memory for more.
    pub fn spare(&self) -> usize
        ensures { result ≡ self.now.free }
    {
        self.spare
    }

    /// Keeps a set, told by its octets, in a slot that is vacant.
    pub fn put(&mut self, zone: u32, octets: &[u8]) -> u32
        requires spelling { IsSpelling octets.now }
        requires cells { cells_for (length octets.now) ≤ self.old.cells }
        requires slot { 0 < self.old.free }
        ensures vacant { IsVacant self.old.slots result }
        ensures slots { (set : RecordSet) → Spells octets.now set
            → self.new.slots ≡ slice_set self.old.slots result (Some
            (record { zone = zone; set = set })) }

        // The same by slots.
        ensures here { (set : RecordSet) → Spells octets.now set
            → IsKept self.new.slots result (record { zone = zone; set = set }) }
        ensures others { (other : ℕ) → other ≢ result
            → slice_get self.new.slots other ≡ slice_get self.old.slots other }

        ensures count { length self.new.slots ≡ length self.old.slots }
        ensures cells { self.new.cells ≡ self.old.cells - cells_for (length octets.now) }
        ensures free { self.new.free + 1 ≡ self.old.free }
    {
        written_reads_back();
        self.region.cells();
        let slot = self.free;
        let handle = self.region.put(octets);
        let new = Slot::taken(handle.number(), tag_in(octets), zone);
        self.free = fill(&mut self.slots, slot, new);
        self.spare -= 1;
        slot
    }

    /// Makes room for so many more sets, of so many cells in all, where there isn't as much. All
    /// that is kept stays, and room that was there too, also where memory runs out.
    pub fn reserve(&mut self, slots: usize, cells: usize) -> Result<(), OutOfMemory>
        ensures slots { self.new.slots ≡ self.old.slots ++ nothing (self.new.free - self.old.free) }
        ensures free { MatchResult result (λ _. self.new.free ≡ max self.old.free slots)
            (λ _. self.new.free ≡ self.old.free) }
        ensures cells { MatchResult result (λ _. self.new.cells ≡ max self.old.cells cells)
            (λ _. self.old.cells ≤ self.new.cells) }
        ensures ready { slots ≤ self.old.free → cells ≤ self.old.cells → IsOk result }
    {
        self.region.reserve(cells)?;
        self.reserve_slots(slots)
    }

    /// Makes so many slots free, where there aren't as many.
    fn reserve_slots(&mut self, slots: usize) -> Result<(), OutOfMemory>
        ensures slots { self.new.slots ≡ self.old.slots ++ nothing (self.new.free - self.old.free) }
        ensures free { MatchResult result (λ _. self.new.free ≡ max self.old.free slots)
            (λ _. self.new.free ≡ self.old.free) }
        ensures cells { self.new.cells ≡ self.old.cells }
        ensures ready { slots ≤ self.old.free → IsOk result }
    {
        if slots <= self.spare {
            return Ok(());
        }
        let more = slots - self.spare;
        if more > MOST_SLOTS - self.slots.len() {
            return Err(OutOfMemory);
        }
        if !make_room(&mut self.slots, more) {
            return Err(OutOfMemory);
        }
        self.free = give_slots(&mut self.slots, self.free, self.spare, more);
        self.spare = slots;
        Ok(())
    }

    /// Gives the set of a slot other octets. It stays in its slot and of its zone.
    pub fn replace(&mut self, slot: u32, octets: &[u8])
        requires taken { IsInUse self.old.slots slot }
        requires spelling { IsSpelling octets.now }
        requires cells { cells_for (length octets.now) ≤ self.old.cells }
        ensures slots { (set : RecordSet) (kept : Kept) → Spells octets.now set
            → IsKept self.old.slots slot kept
            → self.new.slots ≡ slice_set self.old.slots slot (Some
            (record { zone = kept.zone; set = set })) }

        // The same by slots.
        ensures here { (set : RecordSet) (kept : Kept) → Spells octets.now set
            → IsKept self.old.slots slot kept
            → IsKept self.new.slots slot (record { zone = kept.zone; set = set }) }
        ensures others { (other : ℕ) → other ≢ slot
            → slice_get self.new.slots other ≡ slice_get self.old.slots other }

        ensures count { length self.new.slots ≡ length self.old.slots }
        ensures cells { (kept : Kept) → IsKept self.old.slots slot kept
            → self.new.cells + cells_for (length octets.now)
            ≡ self.old.cells + cells_for (length (set_octets kept.set)) }
        ensures free { self.new.free ≡ self.old.free }
    {
        written_reads_back();
        self.region.cells();
        let handle = self.region.put(octets);
        let old = slot_at(&self.slots, slot);
        self.region.free(Handle::of(old.cell()));
        let new = Slot::taken(handle.number(), tag_in(octets), old.zone());
        set_slot(&mut self.slots, slot, new);
    }

    /// Takes away the set of a slot.
    pub fn take(&mut self, slot: u32)
        requires taken { IsInUse self.old.slots slot }
        ensures slots { self.new.slots ≡ slice_set self.old.slots slot None }

        // The same by slots.
        ensures gone { IsVacant self.new.slots slot }
        ensures others { (other : ℕ) → other ≢ slot
            → slice_get self.new.slots other ≡ slice_get self.old.slots other }

        ensures count { length self.new.slots ≡ length self.old.slots }
        ensures cells { (kept : Kept) → IsKept self.old.slots slot kept
            → self.new.cells ≡ self.old.cells + cells_for (length (set_octets kept.set)) }
        ensures free { self.new.free ≡ self.old.free + 1 }
    {
        written_reads_back();
        let gone = slot_at(&self.slots, slot);
        self.region.free(Handle::of(gone.cell()));
        set_slot(&mut self.slots, slot, Slot::vacant(self.free));
        self.free = slot;
        self.spare += 1;
    }
}

/// Fills a free slot, and answers the next free one.
fn fill(slots: &mut Vec<Slot>, at: u32, new: Slot) -> u32
    requires { at < length slots.old.items }
    ensures slots { slots.new.items ≡ slice_set slots.old.items at new }
    ensures next { (slot : Slot) → slice_get slots.old.items at ≡ Some slot → result ≡ slot.zone }
{
    let next = slots[at as usize].zone();
    slots[at as usize] = new;
    next
}

/// The slot of a number.
fn slot_at(slots: &Vec<Slot>, at: u32) -> Slot
    requires { at < length slots.now.items }
    ensures { slice_get slots.now.items at ≡ Some result }
{
    slots[at as usize]
}

/// Puts a slot into the place of another.
fn set_slot(slots: &mut Vec<Slot>, at: u32, slot: Slot)
    requires { at < length slots.old.items }
    ensures { slots.new.items ≡ slice_set slots.old.items at slot }
{
    slots[at as usize] = slot;
}
