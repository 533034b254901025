//! Slots, in use and free.

ghost use Rattle.std.specs.Prelude.{◌≡◌, ◌<◌, ◌^◌, length, slice_get, Some};
ghost use Rattle.set_store.specs.Packed.{Slot};
ghost use Rattle.set_store.specs.Index.{new_slot};

use std::marker::Model;

/// The cell of a slot that is free, and a hint that tells none. No handle has this number, since
/// there are fewer cells.
pub const NO_CELL: u32 = 0x7ff_ffff;

/// The tag of a slot that is free, which no name has.
const NO_TAG: u32 = 31;

/// How many cells a slot can tell apart.
const CELLS: u32 = 0x800_0000;

/// A slot of a set, in eight octets. Contracts see its cell, its tag and its zone.
#[derive(Clone, Copy)]
pub(crate) struct Slot {
    /// In the low 27 bits the handle of the set's octets, or `NO_CELL` where the slot is free. In
    /// the five bits above what the name of the set tells (`name_tag`), so that mostly a set of
    /// another name is known without its octets.
    word: u32,
    /// The number of the set's zone, or the next free slot where the slot is free.
    zone: u32,
}

impl Model for Slot {
    ghost use Rattle.std.specs.Prelude.{◌≡◌, ◌+◌, ◌*◌, ◌/◌, ◌%◌, ℕ};
    ghost use Rattle.std.proofs.Common.{ap, arith};
    ghost use Rattle.set_store.specs.Packed.{Slot};

    ghost Value = { Slot };

    ghost view = { λ s. record {
      cell = s.word % 134217728;
      tag = s.word / 134217728;
      zone = s.zone;
    } };

    ghost inverse = { λ s. record { word = s.tag * 134217728 + s.cell; zone = s.zone } };

    ghost inverse_ok = { λ a h.
        let e : a.word / 134217728 * 134217728 + a.word % 134217728 ≡ a.word = omega arith in
        ap (λ (w : ℕ). record { word = w; zone = a.zone }) e };
}

impl Slot {
    /// A slot in use.
    pub fn taken(cell: u32, tag: u32, zone: u32) -> Slot
        requires cell { cell < 2 ^ 27 }
        requires tag { tag < 32 }
        ensures { result ≡ record { cell = cell; tag = tag; zone = zone } }
    {
        Slot {
            word: tag * CELLS + cell,
            zone,
        }
    }

    /// A free slot in front of another one.
    pub fn vacant(next: u32) -> Slot
        ensures { result ≡ new_slot next }
    {
        Slot::taken(NO_CELL, NO_TAG, next)
    }

    /// The handle of the set's octets, or `NO_CELL` where the slot is free.
    pub fn cell(&self) -> u32
        ensures { result ≡ self.now.cell }
    {
        self.word % CELLS
    }

    /// What the name of the set tells.
    pub fn tag(&self) -> u32
        ensures { result ≡ self.now.tag }
    {
        self.word / CELLS
    }

    /// The number of the set's zone, or the next free slot where the slot is free.
    pub fn zone(&self) -> u32
        ensures { result ≡ self.now.zone }
    {
        self.zone
    }
}

/// The cell of a slot.
pub(crate) fn cell_at(slots: &Vec<Slot>, at: u32) -> u32
    requires { at < length slots.now.items }
    ensures { (slot : Slot) → slice_get slots.now.items at ≡ Some slot → result ≡ slot.cell }
{
    slots[at as usize].cell()
}

/// The tag of a slot.
pub(crate) fn tag_at(slots: &Vec<Slot>, at: u32) -> u32
    requires { at < length slots.now.items }
    ensures { (slot : Slot) → slice_get slots.now.items at ≡ Some slot → result ≡ slot.tag }
{
    slots[at as usize].tag()
}
