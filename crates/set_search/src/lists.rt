//! Sets that are looked at by place, wherever they are stored.

ghost use Rattle.std.specs.Prelude.{◌≡◌, ◌<◌, ℕ, List, length, slice_get, Some, IsTrue, ◌↔◌};
ghost use Rattle.zone_model.specs.Suffix.{EndsWith};
ghost use Rattle.zone_model.specs.RecordSetRecord.{RecordSet};
ghost use Rattle.set_search.specs.Bounds.{is_before};
ghost use Rattle.set_search.specs.Found.{DifferInName, IsOf, IsPastName, TypeOrNone};
ghost use Rattle.set_search.specs.Stops.{bound_of};

use crate::bounds::Stop;
use crate::order::set_is_before;
use zone_model::{Name, RType, RecordSet};

/// Sets that are looked at by their places.
pub trait SetList {
    /// The sets, from the first place on.
    ghost sets: { Self → List RecordSet };

    /// How many sets there are.
    fn count(&self) -> usize
        ensures { result ≡ length (sets self.now) };

    /// Whether the set at a place stands before a bound.
    fn is_before(&self, place: usize, stop: &Stop) -> bool
        requires { place < length (sets self.now) }
        ensures { (set : RecordSet) → slice_get (sets self.now) place ≡ Some set
            → result ≡ is_before (bound_of stop.now) set };

    /// Whether the set at a place has the name, or one below it.
    fn is_below(&self, place: usize, name: &Name) -> bool
        requires { place < length (sets self.now) }
        ensures { (set : RecordSet) → slice_get (sets self.now) place ≡ Some set
            → IsTrue result ↔ EndsWith set.name name.now };

    /// Whether the set at a place has the name and the type.
    fn is_of(&self, place: usize, name: &Name, rtype: RType) -> bool
        requires { place < length (sets self.now) }
        ensures { (set : RecordSet) → slice_get (sets self.now) place ≡ Some set
            → IsTrue result ↔ IsOf name.now rtype set };

    /// The number of the type of the set at a place, where it has the name. None where it has not.
    fn type_at(&self, place: usize, name: &Name) -> Option<u16>
        requires { place < length (sets self.now) }
        ensures { (set : RecordSet) → slice_get (sets self.now) place ≡ Some set
            → TypeOrNone name.now set result };

    /// Whether the sets at two places are told apart by what is known of their names at once. Where
    /// they aren't, nothing is told.
    fn are_told_apart(&self, place: usize, other: usize) -> bool
        requires place { place < length (sets self.now) }
        requires other { other < length (sets self.now) }
        ensures { IsTrue result → DifferInName (sets self.now) place other }
    {
        false
    }

    /// A place behind that of a set: where one stands there, it has another name. Where the set beside isn't told
    /// apart from it, this is mostly the place of the first one that is; a list that tells none apart gives its end.
    fn past_name(&self, place: usize) -> usize
        requires { place < length (sets self.now) }
        ensures { IsPastName (sets self.now) place result }
    {
        self.count()
    }
}

impl SetList for Vec<RecordSet> {
    ghost sets = { λ list. list.items };

    fn count(&self) -> usize {
        self.len()
    }

    fn is_before(&self, place: usize, stop: &Stop) -> bool {
        set_is_before(&self[place], stop)
    }

    fn is_below(&self, place: usize, name: &Name) -> bool {
        self[place].name.ends_with(name)
    }

    fn is_of(&self, place: usize, name: &Name, rtype: RType) -> bool {
        has_both(&self[place], name, rtype)
    }

    fn type_at(&self, place: usize, name: &Name) -> Option<u16> {
        type_under(&self[place], name)
    }
}

/// The number of a set's type, where it has the name.
pub fn type_under(set: &RecordSet, name: &Name) -> Option<u16>
    ensures { TypeOrNone name.now set.now result }
{
    if !set.name.is_same(name) {
        return None;
    }
    Some(set.rtype.number())
}

/// Whether a set has the name and the type.
fn has_both(set: &RecordSet, name: &Name, rtype: RType) -> bool
    ensures { IsTrue result ↔ IsOf name.now rtype set.now }
{
    if set.rtype != rtype {
        return false;
    }
    set.name.is_same(name)
}
