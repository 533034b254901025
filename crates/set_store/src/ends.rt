//! The end of the sets of a name in a list of slots, guessed by their tags: no cell is read.

ghost use Rattle.std.specs.Prelude.{◌≡◌, ◌≢◌, ◌≤◌, ◌<◌, ℕ, length, slice_get, Some, IsTrue};
ghost use Rattle.set_store.specs.Ends.{AreSlots, IsOtherAt};
ghost use Rattle.set_store.specs.Packed.{Slot};
ghost use Rattle.set_store.specs.Stored.{IsInUse, IsKept, Kept};

use crate::slots::{Slot, tag_at};
use crate::store::SetSlots;
use set_scratch::written_reads_back;

impl SetSlots {
    /// The place of a slot in a list, behind another, whose set has another name than the one there, or
    /// how many slots the list has. Where the sets of that name stand side by side, two or more of them,
    /// it is mostly the first one behind them.
    pub fn past_name(&self, order: &[u32], place: usize) -> usize
        requires place { place < length order.now }
        requires used { (k slot : ℕ) → slice_get order.now k ≡ Some slot
            → IsInUse self.now.slots slot }
        ensures above { place < result }
        ensures within { result ≤ length order.now }
        ensures apart { (slot other : ℕ) (kept another : Kept)
            → slice_get order.now place ≡ Some slot → slice_get order.now result ≡ Some other
            → IsKept self.now.slots slot kept → IsKept self.now.slots other another
            → kept.set.name ≢ another.set.name }
    {
        written_reads_back();
        past_tag(&self.slots, order, place)
    }
}

/// The place of a slot in a list, behind another, that has another tag, or how many slots there are.
/// The one beside it isn't looked at, since who asks knows mostly that it has the same.
fn past_tag(slots: &Vec<Slot>, order: &[u32], place: usize) -> usize
    requires place { place < length order.now }
    requires slots { AreSlots slots.now.items order.now }
    ensures above { place < result }
    ensures within { result ≤ length order.now }
    ensures apart { (at : ℕ) (slot : Slot) → slice_get order.now place ≡ Some at
        → slice_get slots.now.items at ≡ Some slot
        → IsOtherAt slots.now.items order.now slot.tag result }
{
    let own = tag_there(slots, order, place);
    let next = place + 1;
    if next >= order.len() {
        return next;
    }
    let (near, high) = other_round(slots, order, own, place, next);
    other_between(slots, order, own, near, high)
}

/// The place of a slot with another tag than this, or how many slots there are, and one in front of it,
/// found from a place on in steps that double: as far as it is from an earlier one.
fn other_round(
    slots: &Vec<Slot>,
    order: &[u32],
    own: u32,
    place: usize,
    start: usize,
) -> (usize, usize)
    requires slots { AreSlots slots.now.items order.now }
    requires above { place < start }
    requires start { start < length order.now }
    ensures above { place < result.0 }
    ensures below { result.0 < result.1 }
    ensures within { result.1 ≤ length order.now }
    ensures other { IsOtherAt slots.now.items order.now own result.1 }
{
    let size = order.len();
    let mut near = start;
    while near - place < size - near {
        let far = near + (near - place);
        if has_other(slots, order, own, far) {
            return (near, far);
        }
        near = far;
    }
    (near, size)
}

/// The same, found by halving between two places, at the latter of which is such a slot, or none.
fn other_between(slots: &Vec<Slot>, order: &[u32], own: u32, near: usize, high: usize) -> usize
    requires slots { AreSlots slots.now.items order.now }
    requires below { near < high }
    requires within { high ≤ length order.now }
    requires other { IsOtherAt slots.now.items order.now own high }
    ensures above { near < result }
    ensures within { result ≤ length order.now }
    ensures other { IsOtherAt slots.now.items order.now own result }
{
    let mut near = near;
    let mut high = high;
    while near + 1 < high {
        let middle = near + (high - near) / 2;
        if has_other(slots, order, own, middle) {
            high = middle;
        } else {
            near = middle;
        }
    }
    high
}

/// Whether the slot at a place of a list has another tag than this.
#[inline(always)]
fn has_other(slots: &Vec<Slot>, order: &[u32], own: u32, place: usize) -> bool
    requires slots { AreSlots slots.now.items order.now }
    requires place { place < length order.now }
    ensures { IsTrue result → IsOtherAt slots.now.items order.now own place }
{
    tag_there(slots, order, place) != own
}

/// The tag of the slot at a place of a list.
#[inline(always)]
fn tag_there(slots: &Vec<Slot>, order: &[u32], place: usize) -> u32
    requires slots { AreSlots slots.now.items order.now }
    requires place { place < length order.now }
    ensures { (at : ℕ) (slot : Slot) → slice_get order.now place ≡ Some at
        → slice_get slots.now.items at ≡ Some slot → result ≡ slot.tag }
{
    tag_at(slots, order[place])
}
