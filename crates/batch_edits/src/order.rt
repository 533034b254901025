//! The order of two sets in a zone.

ghost use Rattle.std.specs.Prelude.{◌≡◌, ◌≢◌, IsTrue, ◌↔◌};
ghost use Rattle.std.specs.declared.cmp.Ordering.TheVariants.{Less};
ghost use Rattle.record_set.specs.Sets.{key_of};
ghost use Rattle.zone_model.specs.Keys.{key_cmp};

use record_set::{RecordSet, ident_of};
use std::cmp::Ordering;
use zone_model::ident_cmp;

/// Whether the key of the one comes before that of the other.
pub fn comes_before(set: &RecordSet, other: &RecordSet) -> bool
    ensures { IsTrue result ↔ (key_cmp (key_of set.now) (key_of other.now) ≡ Less) }
{
    set_cmp(set, other).is_lt()
}

/// The order of the keys of two sets, of which it copies none.
fn set_cmp(set: &RecordSet, other: &RecordSet) -> Ordering
    ensures { result ≡ key_cmp (key_of set.now) (key_of other.now) }
{
    set.name
        .cmp(&other.name)
        .then(set.rtype.number().cmp(&other.rtype.number()))
        .then(ident_cmp(ident_of(&set.routing), ident_of(&other.routing)))
}
