//! Keys compared where they stand, in the ways that serve most: names right below one name, as most
//! names of a zone are, and types where the names are the same.

ghost use Rattle.std.specs.Prelude.{◌≡◌, ◌≤◌, ◌+◌, ◌∷◌, ℕ, List, drop, get_or, length, take};
ghost use Rattle.std.specs.Prelude.{if◌then◌else◌};
ghost use Rattle.std.specs.Prelude.{IfSome, IsTrue, ◌↔◌};
ghost use Rattle.std.specs.Cmp.Lexicographic.{slice_cmp};
ghost use Rattle.std.specs.Ordering.{nat_cmp};
ghost use Rattle.std.specs.declared.cmp.Ordering.TheVariants.{Greater, Less};
ghost use Rattle.set_search.specs.OrderOfDnsName.{zone_cmp};
ghost use Rattle.set_search.specs.Suffix.{EndsWith};
ghost use Rattle.set_search.specs.Types.{number_of};
ghost use Rattle.set_search.specs.RecordSetRecord.{RecordSet};
ghost use Rattle.set_search.specs.Bounds.{is_before};
ghost use Rattle.set_search.specs.Stops.{bound_of};
ghost use Rattle.set_store.specs.Index.{HoldsAt};
ghost use Rattle.set_store.specs.Stored.{IsSpelling, Spells};

use crate::heads::is_same;
use crate::reads::{front_at, stands_at};
use crate::sameness::{eight_of, is_alike};
use crate::slots::Slot;
use crate::typed::type_under;
use octets::behind;
use set_scratch::Region;
use set_search::{Name, RType, Stop};
use std::cmp::Ordering;

/// Whether the set of a slot stands before a bound, where its name or its type tells that. None
/// where neither does.
#[inline(always)]
pub fn is_before_beside(region: &Region, slots: &Vec<Slot>, slot: u32, stop: &Stop) -> Option<bool>
    requires { (octets : List ℕ) × HoldsAt region.now.held slots.now.items slot octets
        × IsSpelling octets }
    ensures { (octets : List ℕ) (set : RecordSet)
        → HoldsAt region.now.held slots.now.items slot octets → Spells octets set
        → IfSome result (λ before. before ≡ is_before (bound_of stop.now) set) }
{
    // Most sets that are looked at for the end of a group have its name, and few others do.
    if let Stop::PastGroup(_, _) = stop {
        if let Some(before) = is_before_by_type(region, slots, slot, stop) {
            return Some(before);
        }
        return is_before_by_name(region, slots, slot, stop);
    }
    if let Some(before) = is_before_by_name(region, slots, slot, stop) {
        return Some(before);
    }
    is_before_by_type(region, slots, slot, stop)
}

/// The same by names that are right below one name and aren't the same.
#[inline(always)]
fn is_before_by_name(region: &Region, slots: &Vec<Slot>, slot: u32, stop: &Stop) -> Option<bool>
    requires { (octets : List ℕ) × HoldsAt region.now.held slots.now.items slot octets
        × IsSpelling octets }
    ensures { (octets : List ℕ) (set : RecordSet)
        → HoldsAt region.now.held slots.now.items slot octets → Spells octets set
        → IfSome result (λ before. before ≡ is_before (bound_of stop.now) set) }
{
    match stop {
        Stop::From(name, _, _) => is_named_before(region, slots, slot, name),
        Stop::Past(name, _, _) => is_named_before(region, slots, slot, name),
        Stop::PastGroup(name, _) => is_named_before(region, slots, slot, name),
    }
}

/// The same by types, where the names are the same.
#[inline(never)]
fn is_before_by_type(region: &Region, slots: &Vec<Slot>, slot: u32, stop: &Stop) -> Option<bool>
    requires { (octets : List ℕ) × HoldsAt region.now.held slots.now.items slot octets
        × IsSpelling octets }
    ensures { (octets : List ℕ) (set : RecordSet)
        → HoldsAt region.now.held slots.now.items slot octets → Spells octets set
        → IfSome result (λ before. before ≡ is_before (bound_of stop.now) set) }
{
    match stop {
        Stop::From(name, rtype, ident) => {
            if ident.is_some() {
                return None;
            }
            let order = type_order(region, slots, slot, name, *rtype)?;
            Some(order.is_lt())
        }
        Stop::Past(_, _, _) => None,
        Stop::PastGroup(name, rtype) => {
            let order = type_order(region, slots, slot, name, *rtype)?;
            Some(!order.is_gt())
        }
    }
}

/// The order of the type of a slot's set and another, where the set has the name.
fn type_order(
    region: &Region,
    slots: &Vec<Slot>,
    slot: u32,
    name: &Name,
    rtype: RType,
) -> Option<Ordering>
    requires { (octets : List ℕ) × HoldsAt region.now.held slots.now.items slot octets
        × IsSpelling octets }
    ensures { (octets : List ℕ) (set : RecordSet)
        → HoldsAt region.now.held slots.now.items slot octets → Spells octets set
        → IfSome result (λ order. (set.name ≡ name.now)
        × (order ≡ nat_cmp (number_of set.rtype) (number_of rtype))) }
{
    let own = type_under(region, slots, slot, name)?;
    Some(own.cmp(&rtype.number()))
}

/// Whether the set of a slot has the name, or one below it, where its own name and this one are right
/// below one name. None where they aren't.
pub fn is_below_beside(region: &Region, slots: &Vec<Slot>, slot: u32, name: &Name) -> Option<bool>
    requires { (octets : List ℕ) × HoldsAt region.now.held slots.now.items slot octets
        × IsSpelling octets }
    ensures { (octets : List ℕ) (set : RecordSet)
        → HoldsAt region.now.held slots.now.items slot octets → Spells octets set
        → IfSome result (λ below. IsTrue below ↔ EndsWith set.name name.now) }
{
    let labels = first_labels(region, slots, slot, name)?;
    Some(is_same(labels.0, labels.1))
}

/// Whether the name of a slot's set comes before another, where both are right below one name and
/// aren't the same, or where the other is right below that of the set.
#[inline(always)]
fn is_named_before(region: &Region, slots: &Vec<Slot>, slot: u32, name: &Name) -> Option<bool>
    requires { (octets : List ℕ) × HoldsAt region.now.held slots.now.items slot octets
        × IsSpelling octets }
    ensures { (octets : List ℕ) (set : RecordSet)
        → HoldsAt region.now.held slots.now.items slot octets → Spells octets set
        → IfSome result (λ before. zone_cmp set.name name.now
        ≡ (if before then Less else Greater)) }
{
    let Some(labels) = first_labels(region, slots, slot, name) else {
        return above_before(region, slots, slot, name);
    };
    label_before(labels.0, labels.1)
}

/// The same where the other name is right below that of the set. None where it isn't.
#[inline(never)]
fn above_before(region: &Region, slots: &Vec<Slot>, slot: u32, name: &Name) -> Option<bool>
    requires { (octets : List ℕ) × HoldsAt region.now.held slots.now.items slot octets
        × IsSpelling octets }
    ensures { (octets : List ℕ) (set : RecordSet)
        → HoldsAt region.now.held slots.now.items slot octets → Spells octets set
        → IfSome result (λ before. zone_cmp set.name name.now
        ≡ (if before then Less else Greater)) }
{
    let octets = name.octets();
    let size = first_octet(octets);
    if size == 0 {
        return None;
    }
    if !stands_at(region, slots, slot, 0, behind(octets, size + 1)) {
        return None;
    }
    Some(true)
}

/// The first labels of the name of a slot's set and another, where both are right below one name.
#[inline(always)]
fn first_labels<'a>(
    region: &'a Region,
    slots: &Vec<Slot>,
    slot: u32,
    name: &'a Name,
) -> Option<(&'a [u8], &'a [u8])>
    requires { (octets : List ℕ) × HoldsAt region.now.held slots.now.items slot octets
        × IsSpelling octets }
    ensures { (octets : List ℕ) (set : RecordSet)
        → HoldsAt region.now.held slots.now.items slot octets → Spells octets set
        → IfSome result (λ labels. (above : List (List ℕ))
        × (set.name ≡ labels.0.now ∷ above) × (name.now ≡ labels.1.now ∷ above)) }
{
    let octets = name.octets();
    let front = front_at(region, slots, slot);
    let own = first_octet(front);
    let size = first_octet(octets);
    if own == 0 {
        return None;
    }
    if own >= 32 {
        return None;
    }
    if size == 0 {
        return None;
    }
    if !goes_on(
        region,
        slots,
        slot,
        front,
        own + 1,
        behind(octets, size + 1),
    ) {
        return None;
    }
    Some((part(front, 1, own), part(octets, 1, size)))
}

/// Whether the octets of a slot's set, of which these are the first ones, go on with others from a
/// place on.
#[inline(always)]
fn goes_on(
    region: &Region,
    slots: &Vec<Slot>,
    slot: u32,
    first: &[u8],
    offset: usize,
    octets: &[u8],
) -> bool
    requires there { (known : List ℕ) × HoldsAt region.now.held slots.now.items slot known }
    requires first { (known : List ℕ) → HoldsAt region.now.held slots.now.items slot known
        → first.now ≡ take 32 known }
    requires near { offset ≤ 32 }
    ensures { (known : List ℕ) → HoldsAt region.now.held slots.now.items slot known
        → IsTrue result ↔ (take (length octets.now) (drop offset known) ≡ octets.now) }
{
    if offset + octets.len() <= first.len() {
        return is_alike(part(first, offset, octets.len()), octets);
    }
    stands_at(region, slots, slot, offset, octets)
}

/// The first octet, which in a name is how many octets the first label has.
fn first_octet(octets: &[u8]) -> usize
    ensures { result ≡ get_or octets.now 0 0 }
{
    match octets {
        [size, ..] => *size as usize,
        [] => 0,
    }
}

/// So many octets from a place on.
fn part(octets: &[u8], at: usize, n: usize) -> &[u8]
    requires { at + n ≤ length octets.now }
    ensures { result.now ≡ take n (drop at octets.now) }
{
    &octets[at..at + n]
}

/// Whether a label comes before another. None where they are the same.
///
/// Most differ in the first eight octets, which are compared as numbers.
#[inline(always)]
fn label_before(label: &[u8], other: &[u8]) -> Option<bool>
    ensures { IfSome result (λ before. slice_cmp nat_cmp label.now other.now
        ≡ (if before then Less else Greater)) }
{
    if label.len() < 8 {
        return text_before(label, other);
    }
    if other.len() < 8 {
        return text_before(label, other);
    }
    let own = eight_of(label);
    let others = eight_of(other);
    if own == others {
        return text_before(label, other);
    }
    Some(own < others)
}

/// The same octet by octet.
#[inline(never)]
fn text_before(label: &[u8], other: &[u8]) -> Option<bool>
    ensures { IfSome result (λ before. slice_cmp nat_cmp label.now other.now
        ≡ (if before then Less else Greater)) }
{
    match label.cmp(other) {
        Ordering::Less => Some(true),
        Ordering::Equal => None,
        Ordering::Greater => Some(false),
    }
}
