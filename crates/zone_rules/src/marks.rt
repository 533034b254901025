//! Marks of the places in a group, so that a set is compared with the others only where one of them
//! may have its place.
//!
//! A mark is a number. Two policies of one place, failover role, region or location have one mark,
//! and others seldom have the same.

ghost use Rattle.std.specs.Prelude.{◌≡◌, ℕ, ◌+◌, ◌<◌, Option, length, IsTrue, ◌↔◌};
ghost use Rattle.routing.specs.declared.policies.Routing.{Routing};
ghost use Rattle.batch_model.specs.Rules.{AreRivals};
ghost use Rattle.zone_rules.specs.Marks.{next_hash, text_hash, place_hash, hash_of, IsMarked, AreMarked};
ghost use Rattle.zone_rules.specs.Lent.{sets_lent};

use crate::lent::set_at;
use batch_model::{Place, RecordSet, Routing};

/// The marks that were made, each at its number.
pub type Marks = [bool; 256];

/// Whether the mark of the policy was made.
pub fn is_marked(marks: &Marks, policy: &Routing) -> bool
    ensures { IsTrue result ↔ IsMarked marks.now (hash_of policy.now) }
{
    match hash_of(policy) {
        Some(mark) => marks[usize::from(mark)],
        None => false,
    }
}

/// Makes the mark of the set at place `i`. Where its group begins, the marks of the group before
/// go.
pub fn mark_next(marks: &mut Marks, sets: &[&RecordSet], start: usize, i: usize)
    requires within { i < length (sets_lent sets.now) }
    requires before { AreMarked (sets_lent sets.now) marks.old start i }
    ensures { AreMarked (sets_lent sets.now) marks.new start (i + 1) }
{
    if start == i {
        *marks = [false; 256];
    }
    mark(marks, &set_at(sets, i).routing);
}

/// Makes the mark of the policy.
fn mark(marks: &mut Marks, policy: &Routing)
    ensures marked { (other : Routing) → AreRivals policy.now other
        → IsMarked marks.new (hash_of other) }
    ensures kept { (other : Option ℕ) → IsMarked marks.old other → IsMarked marks.new other }
{
    if let Some(mark) = hash_of(policy) {
        marks[usize::from(mark)] = true;
    }
}

/// The mark of the policy's place, failover role, region or location; other policies have none.
fn hash_of(policy: &Routing) -> Option<u8>
    ensures { result ≡ hash_of policy.now }
{
    match policy {
        Routing::Simple | Routing::Weighted(..) | Routing::Multivalue(_) => None,
        Routing::Failover(..) => Some(0),
        Routing::Geolocation(_, place) => Some(place_hash(place)),
        Routing::Latency(_, region) => Some(text_hash(0, region.bytes())),
        Routing::Cidr(_, _, location) => Some(text_hash(0, location.bytes())),
    }
}

/// The mark of a place.
fn place_hash(place: &Place) -> u8
    ensures { result ≡ place_hash place.now }
{
    match place {
        Place::Continent(_) | Place::Anywhere => 0,
        Place::Country(country) => text_hash(0, country),
        Place::Subdivision(country, subdivision) => text_hash(
            text_hash(0, country),
            subdivision.bytes(),
        ),
    }
}

/// The mark of a text that goes on with these bytes.
fn text_hash(mark: u8, bytes: &[u8]) -> u8
    ensures { result ≡ text_hash mark bytes.now }
{
    let mut mark_so_far = mark;
    for byte in bytes {
        mark_so_far = next_hash(mark_so_far, *byte);
    }
    mark_so_far
}

/// The mark of a text that goes on with this byte.
fn next_hash(mark: u8, byte: u8) -> u8
    ensures { result ≡ next_hash mark byte }
{
    ((usize::from(mark) * 31 + usize::from(byte)) % 256) as u8
}
