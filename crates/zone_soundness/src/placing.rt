//! How sets stand in a zone: in zone order, not too many, and those among them that a zone always
//! has.

ghost use Rattle.std.specs.Prelude.{◌≡◌, ◌↔◌, IsTrue, None};
ghost use Rattle.std.specs.declared.cmp.Ordering.TheVariants.{Less};
ghost use Rattle.record_set.specs.Sets.{key_of};
ghost use Rattle.config_model.specs.Keys.{key_cmp};
ghost use Rattle.config_model.specs.Placing.{IsThere};
ghost use Rattle.config_model.specs.Zones.{IsRising};
ghost use Rattle.zone_soundness.specs.Parts.{IsLaidOut};

use crate::apexes::is_zone_name;
use config_model::{key_cmp, keys_are_ordered};
use dns_name::Name;
use rdata_layout::RType;
use record_set::{RecordSet, SetKey};

/// The most sets of a zone (Route 53 quotas).
const MAX_IN_ZONE: usize = 10_000;

/// Whether a zone may have this name and begin with how these sets stand.
pub fn is_laid_out(apex: &Name, sets: &[RecordSet]) -> bool
    ensures { IsTrue result ↔ IsLaidOut apex.now sets.now }
{
    is_zone_name(apex)
        && sets.len() <= MAX_IN_ZONE
        && are_rising(sets)
        && has_simple(sets, apex, RType::Ns)
        && has_simple(sets, apex, RType::Soa)
}

/// Whether the sets are in zone order, with distinct keys.
fn are_rising(sets: &[RecordSet]) -> bool
    ensures { IsTrue result ↔ IsRising sets.now }
{
    for i in 1..sets.len() {
        if !is_before(&sets[i - 1], &sets[i]) {
            return false;
        }
    }
    true
}

/// Whether a set's key comes before that of another, which mostly their names tell.
fn is_before(set: &RecordSet, other: &RecordSet) -> bool
    ensures { IsTrue result ↔ (key_cmp (key_of set.now) (key_of other.now) ≡ Less) }
{
    let order = set.name.cmp(&other.name);
    if order.is_ne() {
        return order.is_lt();
    }
    key_cmp(&set.key(), &other.key()).is_lt()
}

/// Whether a simple set of this name and type is among the sets.
fn has_simple(sets: &[RecordSet], name: &Name, rtype: RType) -> bool
    ensures { IsTrue result
        ↔ IsThere sets.now (record { name = name.now; rtype = rtype; ident = None }) }
{
    let key = SetKey {
        name: *name,
        rtype,
        ident: None,
    };
    has_key(sets, &key)
}

/// Whether a set of the key is among the sets.
fn has_key(sets: &[RecordSet], key: &SetKey) -> bool
    ensures { IsTrue result ↔ IsThere sets.now key.now }
{
    for i in 0..sets.len() {
        if is_same_key(&sets[i].key(), key) {
            return true;
        }
    }
    false
}

/// Whether two keys are one.
fn is_same_key(key: &SetKey, other: &SetKey) -> bool
    ensures { IsTrue result ↔ (key.now ≡ other.now) }
{
    keys_are_ordered();
    key_cmp(key, other).is_eq()
}
