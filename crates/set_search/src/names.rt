//! Names that exist, since a set has them or a name below them.

ghost use Rattle.std.specs.Prelude.{◌≡◌, ◌<◌, ◌+◌, ◌-◌, ℕ, List, length, IsTrue, ◌↔◌};
ghost use Rattle.zone_model.specs.Suffix.{EndsWith};
ghost use Rattle.zone_model.specs.Existing.{Exists, IsAncestor, IsClosest};
ghost use Rattle.zone_model.specs.Zones.{IsRising};
ghost use Rattle.set_search.specs.Found.{IsBelowAt, IsFirstNamed};

use crate::bounds::Stop;
use crate::lists::SetList;
use crate::searching::count_before;
use zone_model::{Name, RType};

/// Whether a set has the name, or a name below it.
pub fn exists_in<S: SetList>(sets: &S, name: &Name, hint: Option<usize>) -> bool
    requires { IsRising (S.sets sets.now) }
    ensures { IsTrue result ↔ Exists (S.sets sets.now) name.now }
{
    if is_at_hint(sets, name, hint) {
        return true;
    }
    let first = first_named(sets, name, hint);
    first < sets.count() && sets.is_below(first, name)
}

/// Whether the set at the place of a hint has the name, or a name below it.
fn is_at_hint<S: SetList>(sets: &S, name: &Name, hint: Option<usize>) -> bool
    ensures { IsTrue result → Exists (S.sets sets.now) name.now }
{
    match hint {
        Some(place) => is_below_at(sets, name, place),
        None => false,
    }
}

/// Whether a set stands at a place, and has the name or one below it.
fn is_below_at<S: SetList>(sets: &S, name: &Name, place: usize) -> bool
    ensures { IsTrue result ↔ IsBelowAt (S.sets sets.now) name.now place }
{
    if place >= sets.count() {
        return false;
    }
    sets.is_below(place, name)
}

/// The same of the place in front of one.
fn is_below_before<S: SetList>(sets: &S, name: &Name, place: usize) -> bool
    ensures { IsTrue result ↔ ((0 < place) × IsBelowAt (S.sets sets.now) name.now (place - 1)) }
{
    if place == 0 {
        return false;
    }
    is_below_at(sets, name, place - 1)
}

/// The longest ancestor of a name that exists.
pub fn closest_in<S: SetList>(sets: &S, name: &Name) -> Name
    requires rising { IsRising (S.sets sets.now) }
    requires some { (other : List (List ℕ)) × IsAncestor name.now other
        × Exists (S.sets sets.now) other }
    ensures { IsClosest (S.sets sets.now) name.now result }
{
    let place = first_named(sets, name, None);
    let mut closest = *name;
    while let Some(parent) = closest.parent() {
        closest = parent;
        if exists_round(sets, &closest, name, place) {
            return closest;
        }
    }
    closest
}

/// Whether a name exists, from the sets beside the place of a name at or below it: the sets of all
/// names below a name stand together.
fn exists_round<S: SetList>(sets: &S, name: &Name, below: &Name, place: usize) -> bool
    requires rising { IsRising (S.sets sets.now) }
    requires first { IsFirstNamed (S.sets sets.now) below.now place }
    requires below { EndsWith below.now name.now }
    ensures { IsTrue result ↔ Exists (S.sets sets.now) name.now }
{
    if is_below_before(sets, name, place) {
        return true;
    }
    is_below_at(sets, name, place)
}

/// The place of the first set whose name isn't before this one.
fn first_named<S: SetList>(sets: &S, name: &Name, hint: Option<usize>) -> usize
    requires { IsRising (S.sets sets.now) }
    ensures { IsFirstNamed (S.sets sets.now) name.now result }
{
    // No type is lower, and a set without an identifier comes first.
    count_before(sets, &Stop::From(name, RType::A, None), hint)
}
