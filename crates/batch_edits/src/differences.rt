//! Sets that are in one list and not in another, both lent and in zone order.

ghost use Rattle.std.specs.Prelude.{◌≡◌, ◌≤◌, slice_get, length, false, IfOk};
ghost use Rattle.std.specs.Prelude.{IsTrue, ◌↔◌, Some};
ghost use Rattle.change_batch.specs.LentSets.{sets_lent};
ghost use Rattle.config_model.specs.Zones.{IsRising};
ghost use Rattle.batch_edits.specs.Places.{AddsKey, AddsSet, IsAbsentFrom, IsNextPlace, IsThereFrom};
ghost use Rattle.config_model.specs.Differences.{AreMissing, AreMissingKeys};

use crate::order::comes_before;
use crate::sameness::is_equal;
use change_batch::set_at;
use octets::OutOfMemory;
use record_set::{RecordSet, SetKey};
use std::alloc::Global;

/// The keys of the sets that are not among the others, of which there are mostly no more than so
/// many.
pub fn missing_keys(
    alloc: Global,
    sets: &[&RecordSet],
    others: &[&RecordSet],
    most: usize,
) -> Result<Vec<SetKey>, OutOfMemory>
    requires sets { IsRising (sets_lent sets.now) }
    requires others { IsRising (sets_lent others.now) }
    ensures { IfOk result (λ keys.
        AreMissingKeys (sets_lent sets.now) (sets_lent others.now) keys.items) }
{
    let mut keys = Vec::with_capacity(alloc, most.min(sets.len()))?;
    let mut place = 0;
    for i in 0..count(sets) {
        place = add_key(others, place, set_at(sets, i), &mut keys)?;
    }
    Ok(keys)
}

/// Copies of the sets that are not among the others, of which there are mostly no more than so
/// many.
pub fn missing_sets(
    alloc: Global,
    sets: &[&RecordSet],
    others: &[&RecordSet],
    most: usize,
) -> Result<Vec<RecordSet>, OutOfMemory>
    requires sets { IsRising (sets_lent sets.now) }
    requires others { IsRising (sets_lent others.now) }
    ensures { IfOk result (λ found.
        AreMissing (sets_lent sets.now) (sets_lent others.now) found.items) }
{
    let mut found = Vec::with_capacity(alloc, most.min(sets.len()))?;
    let mut place = 0;
    for i in 0..count(sets) {
        place = add_set(alloc, others, place, set_at(sets, i), &mut found)?;
    }
    Ok(found)
}

/// Adds the key of a set, where that is not among the others from a place on, and says where to
/// look for the next set.
fn add_key(
    others: &[&RecordSet],
    from: usize,
    set: &RecordSet,
    keys: &mut Vec<SetKey>,
) -> Result<usize, OutOfMemory>
    requires { from ≤ length (sets_lent others.now) }
    ensures within { IfOk result (λ next. next ≤ length (sets_lent others.now)) }
    ensures adds { IfOk result (λ next.
        AddsKey (sets_lent others.now) from set.now next keys.old.items keys.new.items) }
{
    let (next, is_there) = found_from(others, from, set);
    if is_there {
        return Ok(next);
    }
    keys.push(set.key())?;
    Ok(next)
}

/// The same of a copy of the set.
fn add_set(
    alloc: Global,
    others: &[&RecordSet],
    from: usize,
    set: &RecordSet,
    found: &mut Vec<RecordSet>,
) -> Result<usize, OutOfMemory>
    requires { from ≤ length (sets_lent others.now) }
    ensures within { IfOk result (λ next. next ≤ length (sets_lent others.now)) }
    ensures adds { IfOk result (λ next.
        AddsSet (sets_lent others.now) from set.now next found.old.items found.new.items) }
{
    let (next, is_there) = found_from(others, from, set);
    if is_there {
        return Ok(next);
    }
    found.push(set.copy(alloc)?)?;
    Ok(next)
}

/// Whether this very set is among the others from a place on, and the place behind it, or else the
/// one at which it would stand. Most sets stand at the place itself, where no order is looked at.
fn found_from(others: &[&RecordSet], from: usize, set: &RecordSet) -> (usize, bool)
    requires { from ≤ length (sets_lent others.now) }
    ensures within { result.0 ≤ length (sets_lent others.now) }
    ensures there { IsTrue result.1 → IsThereFrom (sets_lent others.now) from set.now result.0 }
    ensures absent { result.1 ≡ false → IsAbsentFrom (sets_lent others.now) from set.now result.0 }
{
    if is_at(others, from, set) {
        return (from + 1, true);
    }
    let place = next_place(others, from, set);
    if is_at(others, place, set) {
        return (place + 1, true);
    }
    (place, false)
}

/// The first place from one on at which a set doesn't come before this one.
fn next_place(others: &[&RecordSet], from: usize, set: &RecordSet) -> usize
    requires { from ≤ length (sets_lent others.now) }
    ensures next { IsNextPlace (sets_lent others.now) from set.now result }
    ensures within { result ≤ length (sets_lent others.now) }
{
    let end = count(others);
    for place in from..end {
        if !comes_before(set_at(others, place), set) {
            return place;
        }
    }
    end
}

/// Whether this very set stands at the place.
fn is_at(others: &[&RecordSet], place: usize, set: &RecordSet) -> bool
    ensures { IsTrue result ↔ (slice_get (sets_lent others.now) place ≡ Some set.now) }
{
    if place >= count(others) {
        return false;
    }
    is_equal(set_at(others, place), set)
}

/// How many sets there are.
fn count(sets: &[&RecordSet]) -> usize
    ensures { result ≡ length (sets_lent sets.now) }
{
    sets.len()
}
