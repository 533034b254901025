//! The rule that each set of a group has a place of its own.

ghost use Rattle.std.specs.Prelude.{◌≡◌, ◌<◌, ◌≤◌, [], length, IsTrue, ◌↔◌};
ghost use Rattle.batch_model.specs.Rules.{OwnPlace, BreaksAt, AreRivals};
ghost use Rattle.zone_rules.specs.Groups.{IsStart};
ghost use Rattle.zone_rules.specs.Marks.{AreMarked};
ghost use Rattle.zone_rules.specs.Lent.{sets_lent};

use crate::lent::set_at;
use crate::marks::{Marks, is_marked};
use batch_model::{RecordSet, Role, Routing};

/// Whether the set at place `i` has the place, failover role, region or location of an earlier set
/// of its group, which begins at `start`.
pub fn has_same_place(sets: &[&RecordSet], marks: &Marks, start: usize, i: usize) -> bool
    requires within { i < length (sets_lent sets.now) }
    requires start { IsStart (sets_lent sets.now) start i }
    requires marks { AreMarked (sets_lent sets.now) marks.now start i }
    ensures { IsTrue result ↔ BreaksAt OwnPlace (sets_lent sets.now) [] i }
{
    if !is_marked(marks, &set_at(sets, i).routing) {
        return false;
    }
    is_place_taken(sets, start, i)
}

/// The same by comparing it with each set of its group before it.
fn is_place_taken(sets: &[&RecordSet], start: usize, i: usize) -> bool
    requires within { i < length (sets_lent sets.now) }
    requires start { IsStart (sets_lent sets.now) start i }
    ensures { IsTrue result ↔ BreaksAt OwnPlace (sets_lent sets.now) [] i }
{
    let own = &set_at(sets, i).routing;
    for k in start..i {
        if is_one_place(&set_at(sets, k).routing, own) {
            return true;
        }
    }
    false
}

/// Whether the two have one place, one failover role, one region or one location.
pub fn is_one_place(policy: &Routing, other: &Routing) -> bool
    ensures { IsTrue result ↔ AreRivals policy.now other.now }
{
    match (policy, other) {
        (Routing::Failover(_, role), Routing::Failover(_, other_role)) => {
            is_same_role(*role, *other_role)
        }
        (Routing::Geolocation(_, place), Routing::Geolocation(_, other_place)) => {
            place.is_same(other_place)
        }
        (Routing::Latency(_, region), Routing::Latency(_, other_region)) => {
            region.is_same(other_region)
        }
        (Routing::Cidr(_, _, location), Routing::Cidr(_, _, other_location)) => {
            location.is_same(other_location)
        }
        _ => false,
    }
}

/// Whether the two roles are one.
fn is_same_role(x: Role, y: Role) -> bool
    ensures { IsTrue result ↔ (x ≡ y) }
{
    x == y
}
