//! Keys and sets looked at one by one.

ghost use Rattle.std.specs.Prelude.{◌≡◌, ◌≤◌, ◌<◌, ◌↔◌, ℕ, length, slice_get, true, IsTrue};
ghost use Rattle.std.specs.Prelude.{Some, IfSome, IfNone};
ghost use Rattle.record_set.specs.declared.sets.RecordSet.{RecordSet};
ghost use Rattle.zone_table.specs.Changes.{IsKeyOf};
ghost use Rattle.zone_table.specs.Sets.{IsAmong, is_of_group};
ghost use Rattle.alias_links.specs.Aliases.{is_alias_set};
ghost use Rattle.alias_links.specs.Laws.{HasAlias};
ghost use Rattle.alias_links.specs.Leasts.{IsLesser};

use dns_name::Name;
use rdata_layout::RType;
use record_set::{Body, RecordSet, SetKey};
use zone_table::{key_cmp, keys_are_ordered};

/// Whether the key is one of these.
pub fn is_key_of(keys: &[SetKey], key: &SetKey) -> bool
    ensures { IsTrue result ↔ IsKeyOf keys.now key.now }
{
    for i in 0..keys.len() {
        if is_same_key(&keys[i], key) {
            return true;
        }
    }
    false
}

/// Whether two keys are one.
fn is_same_key(key: &SetKey, other: &SetKey) -> bool
    ensures { IsTrue result ↔ (key.now ≡ other.now) }
{
    keys_are_ordered();
    key_cmp(key, other).is_eq()
}

/// The lesser of two keys, or the one that there is.
pub fn lesser(one: Option<SetKey>, other: Option<SetKey>) -> Option<SetKey>
    ensures { IsLesser one other result }
{
    keys_are_ordered();
    let Some(key) = one else {
        return other;
    };
    let Some(other) = other else {
        return Some(key);
    };
    if key_cmp(&key, &other).is_gt() {
        return Some(other);
    }
    Some(key)
}

/// Whether one of the sets is an alias.
pub fn adds_alias(sets: &[RecordSet]) -> bool
    ensures { IsTrue result ↔ HasAlias sets.now }
{
    for i in 0..sets.len() {
        if is_alias(&sets[i]) {
            return true;
        }
    }
    false
}

/// Whether a set is an alias.
pub fn is_alias(set: &RecordSet) -> bool
    ensures { result ≡ is_alias_set set.now }
{
    match set.body {
        Body::Values { .. } => false,
        Body::Alias { .. } => true,
    }
}

/// Whether one of the sets has the name and the type.
///
/// The search begins at a place near which such a set may stand, and leaves the place behind the
/// one that it found: names that come in the order of the sets are found at once.
pub fn adds_to(sets: &[RecordSet], name: &Name, rtype: RType, near: &mut usize) -> bool
    ensures { IsTrue result ↔ ((set : RecordSet) × IsAmong sets.now set
        × IsTrue (is_of_group name.now rtype set)) }
{
    let start = (*near).min(sets.len());
    if let Some(place) = first_of_group(sets, name, rtype, start, sets.len()) {
        *near = place.wrapping_add(1);
        return true;
    }
    if let Some(place) = first_of_group(sets, name, rtype, 0, start) {
        *near = place.wrapping_add(1);
        return true;
    }
    false
}

/// The first place from one on, and before another, of a set with the name and the type.
fn first_of_group(
    sets: &[RecordSet],
    name: &Name,
    rtype: RType,
    from: usize,
    to: usize,
) -> Option<usize>
    requires { to ≤ length sets.now }
    ensures some { IfSome result (λ place. (set : RecordSet) × IsAmong sets.now set
        × IsTrue (is_of_group name.now rtype set)) }
    ensures none { IfNone result ((j : ℕ) (set : RecordSet) → from ≤ j → j < to
        → slice_get sets.now j ≡ Some set → is_of_group name.now rtype set ≡ true → ⊥) }
{
    for place in from..to {
        if is_of_group(&sets[place], name, rtype) {
            return Some(place);
        }
    }
    None
}

/// Whether a set has the name and the type.
pub fn is_of_group(set: &RecordSet, name: &Name, rtype: RType) -> bool
    ensures { result ≡ is_of_group name.now rtype set.now }
{
    name == &set.name && rtype.number() == set.rtype.number()
}
