//! Keys that are there: in a zone, or among others.

ghost use Rattle.std.specs.Prelude.{◌≡◌, IsTrue, ◌↔◌};
ghost use Rattle.std.specs.List.{AllByRecursion};
ghost use Rattle.zone_table.specs.Changes.{AreThere, IsKeyOf};
ghost use Rattle.zone_table.specs.Zones.{placed_in};
ghost use Rattle.zone_table.specs.Placing.{IsThere};
ghost use Rattle.zone_table.specs.Slotted.{sets_of};

use crate::apart::keys_are_apart;
use zone_table::{SetKey, SetRef, Zones, key_cmp, keys_are_ordered};

/// Whether these keys are there, and none is named twice.
pub fn are_there(zones: &Zones, zone: u32, keys: &[SetKey]) -> bool
    ensures { IsTrue result ↔ AreThere (sets_of (placed_in zones.now.zones zone)) keys.now }
{
    have_all(zones, zone, keys) && keys_are_apart(keys)
}

/// Whether each of these keys is there.
fn have_all(zones: &Zones, zone: u32, keys: &[SetKey]) -> bool
    ensures { IsTrue result
        ↔ AllByRecursion (IsThere (sets_of (placed_in zones.now.zones zone))) keys.now }
{
    match keys {
        [] => true,
        [first, others @ ..] => has_key(zones, zone, first) && have_all(zones, zone, others),
    }
}

/// Whether a zone has a set of the key: it is what stands between the sets before the key and those
/// behind it.
pub fn has_key(zones: &Zones, zone: u32, key: &SetKey) -> bool
    ensures { IsTrue result ↔ IsThere (sets_of (placed_in zones.now.zones zone)) key.now }
{
    zones.well_formed();
    let from = zones.next_from(zone, key, false);
    let past = zones.next_from(zone, key, true);
    !is_same_ref(from, past)
}

/// Whether two references are one, or both none.
fn is_same_ref(from: Option<SetRef>, past: Option<SetRef>) -> bool
    ensures { IsTrue result ↔ (from ≡ past) }
{
    from == past
}

/// Whether two keys are one.
pub fn is_same_key(key: &SetKey, other: &SetKey) -> bool
    ensures { IsTrue result ↔ (key.now ≡ other.now) }
{
    keys_are_ordered();
    key_cmp(key, other).is_eq()
}

/// Whether the key is one of these.
pub fn is_key_of(keys: &[SetKey], key: &SetKey) -> bool
    ensures { IsTrue result ↔ IsKeyOf keys.now key.now }
{
    match keys {
        [] => false,
        [first, others @ ..] => is_same_key(first, key) || is_key_of(others, key),
    }
}
