//! The type of a set that has a name, told by the octets in front of all others: mostly by those
//! of its first cell alone.

ghost use Rattle.std.specs.Prelude.{◌≡◌, ◌≤◌, ◌+◌, ℕ, List, drop, length, take, IsTrue, ◌↔◌};
ghost use Rattle.set_search.specs.RecordSetRecord.{RecordSet};
ghost use Rattle.set_search.specs.Found.{IsOf, TypeOrNone};
ghost use Rattle.set_store.specs.Heads.{IsTypeBehind};
ghost use Rattle.set_store.specs.Index.{HoldsAt};
ghost use Rattle.set_store.specs.Stored.{IsSpelling, Spells};

use crate::reads::{front_at, front_from, stands_at, two_at};
use crate::sameness::is_alike;
use crate::slots::{Slot, cell_at, tag_at};
use crate::tags::name_tag;
use octets::{front, number_at};
use set_scratch::Region;
use set_search::{Name, RType};

/// Whether the set of a slot has the name and the type. Who asks knows mostly that the tags are the
/// same, or that the set is the next one to the name, so that its octets are looked at at once.
pub(crate) fn is_of_at(
    region: &Region,
    slots: &Vec<Slot>,
    slot: u32,
    name: &Name,
    rtype: RType,
) -> bool
    requires { (octets : List ℕ) × HoldsAt region.now.held slots.now.items slot octets
        × IsSpelling octets }
    ensures { (octets : List ℕ) (set : RecordSet)
        → HoldsAt region.now.held slots.now.items slot octets → Spells octets set
        → IsTrue result ↔ IsOf name.now rtype set }
{
    let Some(number) = type_read(region, slots, slot, name) else {
        return false;
    };
    if number != rtype.number() {
        return false;
    }
    true
}

/// The number of the type of a slot's set, where it has the name.
pub(crate) fn type_under(region: &Region, slots: &Vec<Slot>, slot: u32, name: &Name) -> Option<u16>
    requires { (octets : List ℕ) × HoldsAt region.now.held slots.now.items slot octets
        × IsSpelling octets }
    ensures { (octets : List ℕ) (set : RecordSet)
        → HoldsAt region.now.held slots.now.items slot octets → Spells octets set
        → TypeOrNone name.now set result }
{
    if tag_at(slots, slot) != name_tag(name.octets()) {
        return None;
    }
    type_read(region, slots, slot, name)
}

/// The same without a look at the tag.
fn type_read(region: &Region, slots: &Vec<Slot>, slot: u32, name: &Name) -> Option<u16>
    requires { (octets : List ℕ) × HoldsAt region.now.held slots.now.items slot octets
        × IsSpelling octets }
    ensures { (octets : List ℕ) (set : RecordSet)
        → HoldsAt region.now.held slots.now.items slot octets → Spells octets set
        → TypeOrNone name.now set result }
{
    let octets = name.octets();
    let first = front_at(region, slots, slot);
    if octets.len() + 2 <= first.len() {
        return type_in_front(first, octets);
    }
    if !stands_at(region, slots, slot, 0, octets) {
        return None;
    }
    let own = two_at(region, slots, slot, octets.len());
    Some(number_at(&own, 0))
}

/// The same where the set's octets may begin in this cell, which is a hint and may be wrong. What
/// stands there is looked at without a wait for what the slot says, which is asked beside it.
#[inline(always)]
pub(crate) fn type_near(
    region: &Region,
    slots: &Vec<Slot>,
    slot: u32,
    name: &Name,
    cell: u32,
) -> Option<u16>
    requires { (octets : List ℕ) × HoldsAt region.now.held slots.now.items slot octets
        × IsSpelling octets }
    ensures { (octets : List ℕ) (set : RecordSet)
        → HoldsAt region.now.held slots.now.items slot octets → Spells octets set
        → TypeOrNone name.now set result }
{
    if cell_at(slots, slot) != cell {
        return type_under(region, slots, slot, name);
    }
    let octets = name.octets();
    let first = front_from(region, slots, slot, cell);
    if octets.len() + 2 <= first.len() {
        return type_in_front(first, octets);
    }
    type_under(region, slots, slot, name)
}

/// The number behind some octets, where others begin with these.
fn type_in_front(octets: &[u8], piece: &[u8]) -> Option<u16>
    requires { length piece.now + 2 ≤ length octets.now }
    ensures { IsTypeBehind octets.now piece.now result }
{
    if !is_alike(front(octets, piece.len()), piece) {
        return None;
    }
    Some(number_at(two_behind(octets, piece.len()), 0))
}

/// Two octets from a place on.
fn two_behind(octets: &[u8], at: usize) -> &[u8]
    requires { at + 2 ≤ length octets.now }
    ensures { result.now ≡ take 2 (drop at octets.now) }
{
    &octets[at..at + 2]
}
