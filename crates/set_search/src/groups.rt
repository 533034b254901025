//! The sets of one name and type: all that stands between two bounds.

ghost use Rattle.std.specs.Prelude.{◌≡◌, ◌≤◌, ◌<◌, ℕ, length, None, slice_get, Some, IsTrue, ◌↔◌};
ghost use Rattle.zone_model.specs.RecordSetRecord.{RecordSet};
ghost use Rattle.zone_model.specs.Types.{number_of};
ghost use Rattle.zone_model.specs.Zones.{IsRising};
ghost use Rattle.set_search.specs.Found.{EndsBetween, IsBracket, IsCount, IsGroupAt, IsOf, IsSetOfGroupAt, IsTypedAt};
ghost use Rattle.set_search.specs.declared.bounds.Bound.TheVariants.{From, PastGroup};

use crate::bounds::Stop;
use crate::lists::SetList;
use crate::searching::count_before;
use zone_model::{Name, RType};

/// Where the sets of a name and type stand, which is side by side: the place of the first one, and
/// how many they are.
///
/// A set of the name at the hint tells by its type on which side to look, and mostly the one beside
/// it tells the rest.
pub fn group_in<S: SetList>(
    sets: &S,
    name: &Name,
    rtype: RType,
    hint: Option<usize>,
) -> (usize, usize)
    requires { IsRising (S.sets sets.now) }
    ensures { IsGroupAt (S.sets sets.now) name.now rtype result.0 result.1 }
{
    if let Some(place) = hint {
        if place < sets.count() {
            if let Some(number) = sets.type_at(place, name) {
                return group_beside(sets, name, rtype, place, number);
            }
        }
    }
    let start = count_before(sets, &Stop::From(name, rtype, None), hint);
    let end = end_from(sets, name, rtype, start);
    (start, end - start)
}

/// The same where a set of the name stands at a place, and its type has this number.
fn group_beside<S: SetList>(
    sets: &S,
    name: &Name,
    rtype: RType,
    place: usize,
    number: u16,
) -> (usize, usize)
    requires rising { IsRising (S.sets sets.now) }
    requires typed { IsTypedAt (S.sets sets.now) name.now place number }
    ensures { IsGroupAt (S.sets sets.now) name.now rtype result.0 result.1 }
{
    if number == rtype.number() {
        return group_round(sets, name, rtype, place);
    }
    if number < rtype.number() {
        return group_behind(sets, name, rtype, place);
    }
    let start = start_in_front(sets, name, rtype, place);
    let end = end_from(sets, name, rtype, start);
    (start, end - start)
}

/// The same where the type at the place is a lower one.
fn group_behind<S: SetList>(sets: &S, name: &Name, rtype: RType, place: usize) -> (usize, usize)
    requires rising { IsRising (S.sets sets.now) }
    requires lower { (number : ℕ) × IsTypedAt (S.sets sets.now) name.now place number
        × (number < number_of rtype) }
    ensures { IsGroupAt (S.sets sets.now) name.now rtype result.0 result.1 }
{
    let size = sets.count();
    let next = place + 1;
    if next >= size {
        return (next, 0);
    }
    let Some(number) = sets.type_at(next, name) else {
        return (next, 0);
    };
    if number > rtype.number() {
        return (next, 0);
    }
    let start = start_behind(sets, name, rtype, next, number);
    let end = end_from(sets, name, rtype, start);
    (start, end - start)
}

/// The place of the first set of a group that isn't in front of a place, at which a set of the name
/// stands whose type has this number.
fn start_behind<S: SetList>(sets: &S, name: &Name, rtype: RType, place: usize, number: u16) -> usize
    requires rising { IsRising (S.sets sets.now) }
    requires typed { IsTypedAt (S.sets sets.now) name.now place number }
    requires before { IsBracket (S.sets sets.now)
        (From (record { name = name.now; rtype = rtype; ident = None })) place
        (length (S.sets sets.now)) }
    ensures { IsCount (S.sets sets.now)
        (From (record { name = name.now; rtype = rtype; ident = None })) result }
{
    if number == rtype.number() {
        return place;
    }
    count_before(sets, &Stop::From(name, rtype, None), Some(place))
}

/// The place of the first set of a group, where a set of the name and of a higher type stands at a
/// place.
fn start_in_front<S: SetList>(sets: &S, name: &Name, rtype: RType, place: usize) -> usize
    requires rising { IsRising (S.sets sets.now) }
    requires higher { (number : ℕ) × IsTypedAt (S.sets sets.now) name.now place number
        × (number_of rtype < number) }
    ensures { IsCount (S.sets sets.now)
        (From (record { name = name.now; rtype = rtype; ident = None })) result }
{
    if place == 0 {
        return 0;
    }
    let Some(_) = sets.type_at(place - 1, name) else {
        return place;
    };
    count_before(sets, &Stop::From(name, rtype, None), Some(place))
}

/// The same where a set of the group stands at a place.
fn group_round<S: SetList>(sets: &S, name: &Name, rtype: RType, place: usize) -> (usize, usize)
    requires rising { IsRising (S.sets sets.now) }
    requires member { IsSetOfGroupAt (S.sets sets.now) name.now rtype place }
    ensures { IsGroupAt (S.sets sets.now) name.now rtype result.0 result.1 }
{
    let start = start_of(sets, name, rtype, place);
    let end = end_of(sets, name, rtype, place);
    (start, end - start)
}

/// The place behind the last set of a group, from the place that its first one has or would have.
fn end_from<S: SetList>(sets: &S, name: &Name, rtype: RType, start: usize) -> usize
    requires rising { IsRising (S.sets sets.now) }
    requires start { IsCount (S.sets sets.now)
        (From (record { name = name.now; rtype = rtype; ident = None })) start }
    ensures { IsCount (S.sets sets.now) (PastGroup name.now rtype) result }
{
    if start >= sets.count() {
        return start;
    }
    if !sets.is_of(start, name, rtype) {
        return start;
    }
    end_of(sets, name, rtype, start)
}

/// The place of the first set of a group, of which one stands at a place.
fn start_of<S: SetList>(sets: &S, name: &Name, rtype: RType, place: usize) -> usize
    requires rising { IsRising (S.sets sets.now) }
    requires member { IsSetOfGroupAt (S.sets sets.now) name.now rtype place }
    ensures { IsCount (S.sets sets.now)
        (From (record { name = name.now; rtype = rtype; ident = None })) result }
{
    if place == 0 {
        return 0;
    }
    if !is_with(sets, name, rtype, place, place - 1) {
        return place;
    }
    count_before(sets, &Stop::From(name, rtype, None), Some(place))
}

/// Whether the set at a place is of a group, of which one stands at another.
fn is_with<S: SetList>(sets: &S, name: &Name, rtype: RType, member: usize, place: usize) -> bool
    requires member { IsSetOfGroupAt (S.sets sets.now) name.now rtype member }
    requires place { place < length (S.sets sets.now) }
    ensures { (set : RecordSet) → slice_get (S.sets sets.now) place ≡ Some set
        → IsTrue result ↔ IsOf name.now rtype set }
{
    if sets.are_told_apart(member, place) {
        return false;
    }
    sets.is_of(place, name, rtype)
}

/// The place behind the last set of a group, of which one stands at a place.
///
/// The set beside it is asked first: mostly its tag tells that there are no more.
fn end_of<S: SetList>(sets: &S, name: &Name, rtype: RType, place: usize) -> usize
    requires rising { IsRising (S.sets sets.now) }
    requires member { IsSetOfGroupAt (S.sets sets.now) name.now rtype place }
    ensures { IsCount (S.sets sets.now) (PastGroup name.now rtype) result }
{
    let size = sets.count();
    let next = place + 1;
    if next >= size {
        return next;
    }
    if sets.are_told_apart(place, next) {
        return next;
    }
    end_behind(sets, name, rtype, place)
}

/// The same where the set beside it isn't told apart: mostly the group ends where its name does,
/// which one look at the set in front of that place shows.
fn end_behind<S: SetList>(sets: &S, name: &Name, rtype: RType, place: usize) -> usize
    requires rising { IsRising (S.sets sets.now) }
    requires member { IsSetOfGroupAt (S.sets sets.now) name.now rtype place }
    ensures { IsCount (S.sets sets.now) (PastGroup name.now rtype) result }
{
    let high = sets.past_name(place);
    if high - place < 2 {
        return high;
    }
    if sets.is_of(high - 1, name, rtype) {
        return high;
    }
    let (last, high) = end_round(sets, name, rtype, place, high - 1);
    end_between(sets, name, rtype, last, high)
}

/// The place of a set of a group, and a place behind the group's last one, found in doubling steps
/// from one that a set of the group has. Whether a set is of the group tells its name's octets, which is
/// less than the order of two names.
fn end_round<S: SetList>(
    sets: &S,
    name: &Name,
    rtype: RType,
    start: usize,
    high: usize,
) -> (usize, usize)
    requires rising { IsRising (S.sets sets.now) }
    requires ends { EndsBetween (S.sets sets.now) name.now rtype start high }
    ensures { EndsBetween (S.sets sets.now) name.now rtype result.0 result.1 }
{
    let mut last = start;
    while last + 1 < high {
        let step = last - start + 1;
        if step >= high - last {
            return (last, high);
        }
        if !sets.is_of(last + step, name, rtype) {
            return (last, last + step);
        }
        last += step;
    }
    (last, high)
}

/// The place behind the last set of a group, which is between two places.
fn end_between<S: SetList>(sets: &S, name: &Name, rtype: RType, last: usize, high: usize) -> usize
    requires rising { IsRising (S.sets sets.now) }
    requires ends { EndsBetween (S.sets sets.now) name.now rtype last high }
    ensures { IsCount (S.sets sets.now) (PastGroup name.now rtype) result }
{
    let mut last = last;
    let mut high = high;
    while last + 1 < high {
        let middle = last + (high - last) / 2;
        if sets.is_of(middle, name, rtype) {
            last = middle;
        } else {
            high = middle;
        }
    }
    high
}
