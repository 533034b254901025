//! What a batch meets by itself.

ghost use Rattle.std.specs.Prelude.{◌≡◌, ◌+◌, ◌<◌, IfSome, IfNone, IsTrue, ◌↔◌};
ghost use Rattle.batch_model.specs.Limits.{counted, elements_in, HasTooManyValues, HasTooManyCharacters, HasLongSet};
ghost use Rattle.batch_limits.specs.Tests.{IsFirstInvalidOrNone, TellsLimits};

use batch_model::{Action, BatchRefusal, Body, Change, Reason, check_set, is_long};
use dns_name::Name;

/// The most values and aliases of a batch, those of an UPSERT counted twice.
const MOST_ELEMENTS: usize = 1000;

/// The most characters of a batch's value texts, those of an UPSERT counted twice.
const MOST_CHARACTERS: usize = 32000;

/// Why the changes are refused before any is applied.
pub fn check_limits(changes: &[Change], apex: &Name) -> Option<BatchRefusal>
    ensures { TellsLimits changes.now apex.now result }
{
    if changes.is_empty() {
        return Some(BatchRefusal::EmptyBatch);
    }
    if let Some((i, reason)) = first_invalid(changes, apex) {
        return Some(BatchRefusal::InvalidInput(i, reason));
    }
    if has_too_many_values(changes) {
        return Some(BatchRefusal::TooManyValues);
    }
    if has_too_many_characters(changes) {
        return Some(BatchRefusal::TooManyCharacters);
    }
    if has_long_set(changes) {
        return Some(BatchRefusal::TooManyCharacters);
    }
    None
}

/// The first change whose set is refused by itself, and why.
fn first_invalid(changes: &[Change], apex: &Name) -> Option<(usize, Reason)>
    ensures { IsFirstInvalidOrNone changes.now apex.now result }
{
    for (i, change) in changes.iter().enumerate() {
        if let Some(reason) = check_set(&change.set, apex) {
            return Some((i, reason));
        }
    }
    None
}

/// Whether the changes have more than 1,000 values and aliases.
fn has_too_many_values(changes: &[Change]) -> bool
    ensures { IsTrue result ↔ HasTooManyValues changes.now }
{
    let mut left = MOST_ELEMENTS;
    for change in changes {
        let Some(rest) = spend(left, change.action, elements_in(&change.set.body)) else {
            return true;
        };
        left = rest;
    }
    false
}

/// Whether the value texts have more than 32,000 characters.
fn has_too_many_characters(changes: &[Change]) -> bool
    ensures { IsTrue result ↔ HasTooManyCharacters changes.now }
{
    let mut left = MOST_CHARACTERS;
    for change in changes {
        let Some(rest) = spend(left, change.action, change.characters as usize) else {
            return true;
        };
        left = rest;
    }
    false
}

/// Whether a set has more octets than a set may have.
fn has_long_set(changes: &[Change]) -> bool
    ensures { IsTrue result ↔ HasLongSet changes.now }
{
    for change in changes {
        if is_long(&change.set) {
            return true;
        }
    }
    false
}

/// The values of a set; an alias is one.
fn elements_in(body: &Body) -> usize
    ensures { result ≡ elements_in body.now }
{
    match body {
        Body::Values { values, .. } => values.len(),
        Body::Alias { .. } => 1,
    }
}

/// What is left of so many once these are counted, or none where they are more.
fn spend(left: usize, action: Action, n: usize) -> Option<usize>
    ensures some { IfSome result (λ rest. rest + counted action n ≡ left) }
    ensures none { IfNone result (left < counted action n) }
{
    if n > left {
        return None;
    }
    match action {
        Action::Create | Action::Delete => Some(left - n),
        Action::Upsert => without(left - n, n),
    }
}

/// What is left of so many without these, or none where they are more.
fn without(left: usize, n: usize) -> Option<usize>
    ensures some { IfSome result (λ rest. rest + n ≡ left) }
    ensures none { IfNone result (left < n) }
{
    if n > left {
        return None;
    }
    Some(left - n)
}
