//! Searches that look round a place first, and then halve what is left.

ghost use Rattle.std.specs.Prelude.{◌≡◌, ◌≤◌, ◌<◌, ◌-◌, length, slice_get, Some, IsTrue, ◌↔◌};
ghost use Rattle.zone_model.specs.Sets.{key_of};
ghost use Rattle.zone_model.specs.RecordSetRecord.{RecordSet};
ghost use Rattle.zone_model.specs.Zones.{IsRising};
ghost use Rattle.set_search.specs.declared.bounds.Bound.TheVariants.{From};
ghost use Rattle.set_search.specs.Found.{IsBracket, IsCount, Finds};
ghost use Rattle.set_search.specs.Stops.{bound_of};

use crate::bounds::{Stop, before_key, behind_key};
use crate::lists::SetList;
use zone_model::SetKey;

/// How many sets stand before a bound, which is the place of the first one behind it.
///
/// The hint is a place that may be the right one. Near that it saves comparisons, and it changes
/// nothing else.
pub fn count_before<S: SetList>(sets: &S, stop: &Stop, hint: Option<usize>) -> usize
    requires { IsRising (S.sets sets.now) }
    ensures { IsCount (S.sets sets.now) (bound_of stop.now) result }
{
    let size = sets.count();
    match hint {
        Some(place) => {
            let (low, high) = look_round(sets, stop, size, place);
            halve(sets, stop, low, high)
        }
        None => halve(sets, stop, 0, size),
    }
}

/// Two places between which the sets before the bound end, found in doubling steps from a place.
fn look_round<S: SetList>(sets: &S, stop: &Stop, size: usize, place: usize) -> (usize, usize)
    requires rising { IsRising (S.sets sets.now) }
    requires size { size ≡ length (S.sets sets.now) }
    ensures { IsBracket (S.sets sets.now) (bound_of stop.now) result.0 result.1 }
{
    if place >= size {
        return look_down(sets, stop, 0, size);
    }
    let (low, high) = look_at(sets, stop, 0, size, place);
    if low > place {
        return look_up(sets, stop, low, high);
    }
    look_down(sets, stop, low, high)
}

/// The same upwards from the lower of two places.
fn look_up<S: SetList>(sets: &S, stop: &Stop, start: usize, high: usize) -> (usize, usize)
    requires rising { IsRising (S.sets sets.now) }
    requires bracket { IsBracket (S.sets sets.now) (bound_of stop.now) start high }
    ensures { IsBracket (S.sets sets.now) (bound_of stop.now) result.0 result.1 }
{
    let mut low = start;
    while low < high {
        let step = low - start;
        if step >= high - low {
            return (low, high);
        }
        let (next_low, next_high) = look_at(sets, stop, low, high, low + step);
        if next_high < high {
            return (next_low, next_high);
        }
        low = next_low;
    }
    (low, high)
}

/// The same downwards from the higher of two places.
fn look_down<S: SetList>(sets: &S, stop: &Stop, low: usize, start: usize) -> (usize, usize)
    requires rising { IsRising (S.sets sets.now) }
    requires bracket { IsBracket (S.sets sets.now) (bound_of stop.now) low start }
    ensures { IsBracket (S.sets sets.now) (bound_of stop.now) result.0 result.1 }
{
    let mut high = start;
    while low < high {
        let step = start - high;
        if step >= high - low {
            return (low, high);
        }
        let (next_low, next_high) = look_at(sets, stop, low, high, high - 1 - step);
        if next_low > low {
            return (next_low, next_high);
        }
        high = next_high;
    }
    (low, high)
}

/// Halves what is between two places.
fn halve<S: SetList>(sets: &S, stop: &Stop, low: usize, high: usize) -> usize
    requires rising { IsRising (S.sets sets.now) }
    requires bracket { IsBracket (S.sets sets.now) (bound_of stop.now) low high }
    ensures { IsCount (S.sets sets.now) (bound_of stop.now) result }
{
    let mut low = low;
    let mut high = high;
    while low < high {
        let (next_low, next_high) = look_at(sets, stop, low, high, low + (high - low) / 2);
        low = next_low;
        high = next_high;
    }
    low
}

/// Looks at the set at a place between two others, and so gets nearer.
fn look_at<S: SetList>(
    sets: &S,
    stop: &Stop,
    low: usize,
    high: usize,
    place: usize,
) -> (usize, usize)
    requires rising { IsRising (S.sets sets.now) }
    requires bracket { IsBracket (S.sets sets.now) (bound_of stop.now) low high }
    requires from { low ≤ place }
    requires to { place < high }
    ensures bracket { IsBracket (S.sets sets.now) (bound_of stop.now) result.0 result.1 }
    ensures nearer { result.1 - result.0 < high - low }
    ensures low { low ≤ result.0 }
    ensures high { result.1 ≤ high }
{
    if sets.is_before(place, stop) {
        return (place + 1, high);
    }
    (low, place)
}

/// The place of the set with this key, or else that at which it would stand.
pub fn find<S: SetList>(sets: &S, key: &SetKey) -> Result<usize, usize>
    requires { IsRising (S.sets sets.now) }
    ensures { Finds (S.sets sets.now) key.now result }
{
    find_near(sets, key, None)
}

/// The same with a hint: a place that may be the right one, as that behind the set which was found
/// last where keys come in their order.
pub fn find_near<S: SetList>(sets: &S, key: &SetKey, hint: Option<usize>) -> Result<usize, usize>
    requires { IsRising (S.sets sets.now) }
    ensures { Finds (S.sets sets.now) key.now result }
{
    let place = count_before(sets, &before_key(key), hint);
    if has_key(sets, place, key) {
        return Ok(place);
    }
    Err(place)
}

/// Whether the set at the first place that isn't before a key has that key.
fn has_key<S: SetList>(sets: &S, place: usize, key: &SetKey) -> bool
    requires { IsCount (S.sets sets.now) (From key.now) place }
    ensures { IsTrue result ↔ ((set : RecordSet) × (slice_get (S.sets sets.now) place ≡ Some set)
        × (key_of set ≡ key.now)) }
{
    if place >= sets.count() {
        return false;
    }
    if !sets.is_of(place, &key.name, key.rtype) {
        return false;
    }
    sets.is_before(place, &behind_key(key))
}
