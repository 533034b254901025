//! Keys of which no two are one: at once where they rise, and else by comparing each with all.

ghost use Rattle.std.specs.Prelude.{◌≡◌, ◌≢◌, IsTrue, ◌↔◌, slice_get, Some};
ghost use Rattle.std.specs.declared.cmp.Ordering.TheVariants.{Less};
ghost use Rattle.std.specs.List.{AllByRecursion};
ghost use Rattle.zone_table.specs.SetsOfRecordSet.{key_of};
ghost use Rattle.zone_table.specs.RecordSetRecord.{RecordSet};
ghost use Rattle.zone_allowed.specs.Apart.{AreApart};
ghost use Rattle.zone_table.specs.Changes.{DifferByKey};
ghost use Rattle.zone_table.specs.Keys.{key_cmp};
ghost use Rattle.zone_table.specs.Sets.{IsRising};

use crate::there::is_same_key;
use zone_table::{RecordSet, SetKey, key_cmp, keys_are_ordered};

/// Whether the keys of the sets differ.
pub fn sets_are_apart(sets: &[RecordSet]) -> bool
    ensures { IsTrue result ↔ DifferByKey sets.now }
{
    keys_are_ordered();
    are_rising(sets) || differ_each(sets)
}

/// Whether each set's key comes before those of all behind it.
fn are_rising(sets: &[RecordSet]) -> bool
    ensures { IsTrue result → IsRising sets.now }
{
    let Some((first, others)) = sets.split_first() else {
        return true;
    };
    is_before_first(first, others) && are_rising(others)
}

/// Whether a set's key comes before that of the first of these.
fn is_before_first(set: &RecordSet, others: &[RecordSet]) -> bool
    ensures { IsTrue result → (other : RecordSet) → slice_get others.now 0 ≡ Some other
        → key_cmp (key_of set.now) (key_of other) ≡ Less }
{
    match others {
        [] => true,
        [other, ..] => key_cmp(&set.key(), &other.key()).is_lt(),
    }
}

/// Whether each set has another key than all behind it.
fn differ_each(sets: &[RecordSet]) -> bool
    ensures { IsTrue result ↔ DifferByKey sets.now }
{
    match sets {
        [] => true,
        [first, others @ ..] => differs(first, others) && differ_each(others),
    }
}

/// Whether a set has another key than each of these.
fn differs(set: &RecordSet, others: &[RecordSet]) -> bool
    ensures { IsTrue result ↔ AllByRecursion (λ other. key_of set.now ≢ key_of other) others.now }
{
    let key = set.key();
    others.iter().all(|other| !is_same_key(&key, &other.key()))
}

/// Whether no two of the keys are one.
pub fn keys_are_apart(keys: &[SetKey]) -> bool
    ensures { IsTrue result ↔ AreApart keys.now }
{
    match keys {
        [] => true,
        [first, others @ ..] => is_another(first, others) && keys_are_apart(others),
    }
}

/// Whether a key is none of these.
fn is_another(key: &SetKey, others: &[SetKey]) -> bool
    ensures { IsTrue result ↔ AllByRecursion (λ other. key.now ≢ other) others.now }
{
    others.iter().all(|other| !is_same_key(key, other))
}
