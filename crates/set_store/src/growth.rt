//! More slots, and the memory that they take.

ghost use Rattle.std.specs.Prelude.{◌≡◌, ◌≤◌, ◌<◌, ◌+◌, ◌^◌, ◌++◌, ◌∷◌, [], ℕ, length, IsTrue};
ghost use Rattle.std.specs.Prelude.{None, map, vec_len, vec_capacity};
ghost use Rattle.set_scratch.specs.Stored.{Held};
ghost use Rattle.set_store.specs.Index.{IsIntact, kept_in, new_slot};
ghost use Rattle.set_store.specs.Stored.{nothing};

use crate::slots::Slot;

/// Takes memory for so many more slots, where there is none: for these alone, or for a sixteenth of
/// those that are there, whichever is more. `false` where there is none to be had.
pub(crate) fn make_room(slots: &mut Vec<Slot>, more: usize) -> bool
    ensures items { slots.new.items ≡ slots.old.items }
    ensures len { vec_len slots.new ≡ vec_len slots.old }
    ensures room { IsTrue result → vec_len slots.new + more ≤ vec_capacity slots.new }
{
    if more <= slots.capacity() - slots.len() {
        return true;
    }
    let ample = more.max(slots.len() / 16);
    if slots.reserve_exact(ample).is_ok() {
        return true;
    }
    slots.reserve_exact(more).is_ok()
}

/// Adds free slots in front of the others, and answers the first one.
pub(crate) fn give_slots(slots: &mut Vec<Slot>, free: u32, spare: usize, more: usize) -> u32
    requires room { vec_len slots.old + more ≤ vec_capacity slots.old }
    requires few { vec_len slots.old + more < 2 ^ 32 }
    ensures index { (held : Held) → IsIntact held slots.old.items free spare
        → IsIntact held slots.new.items result (spare + more) }
    ensures seen { (held : Held)
        → map (kept_in held) slots.new.items ≡ map (kept_in held) slots.old.items ++ nothing more }
{
    let mut free = free;
    for _ in 0..more {
        free = give_slot(slots, free);
    }
    free
}

/// Adds a slot in front of the free ones, and answers its number.
fn give_slot(slots: &mut Vec<Slot>, free: u32) -> u32
    requires room { vec_len slots.old < vec_capacity slots.old }
    requires few { vec_len slots.old < 2 ^ 32 }
    ensures slots { slots.new.items ≡ slots.old.items ++ new_slot free ∷ [] }
    ensures room { vec_capacity slots.new ≡ vec_capacity slots.old }
    ensures length { vec_len slots.new ≡ vec_len slots.old + 1 }
    ensures number { result ≡ length slots.old.items }
{
    let number = slots.len() as u32;
    slots.push_reserved(Slot::vacant(free));
    number
}
