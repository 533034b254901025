//! The order of a set and of a bound.

ghost use Rattle.std.specs.Prelude.{◌≡◌};
ghost use Rattle.std.specs.Option.{option_copied};
ghost use Rattle.zone_model.specs.Sets.{key_of};
ghost use Rattle.zone_model.specs.Keys.{key_cmp};
ghost use Rattle.set_search.specs.Bounds.{group_cmp, is_before};
ghost use Rattle.set_search.specs.Stops.{bound_of};

use crate::bounds::Stop;
use std::cmp::Ordering;
use zone_model::{Ident, Name, RType, RecordSet, ident_cmp, ident_of};

/// Whether a set stands before a bound.
pub fn set_is_before(set: &RecordSet, stop: &Stop) -> bool
    ensures { result ≡ is_before (bound_of stop.now) set.now }
{
    match stop {
        Stop::From(name, rtype, ident) => set_cmp(set, name, *rtype, *ident).is_lt(),
        Stop::Past(name, rtype, ident) => !set_cmp(set, name, *rtype, *ident).is_gt(),
        Stop::PastGroup(name, rtype) => !group_cmp(set, name, *rtype).is_gt(),
    }
}

/// The order of a set's key and of the key of these parts, of which it copies none.
fn set_cmp(set: &RecordSet, name: &Name, rtype: RType, ident: Option<&Ident>) -> Ordering
    ensures { result ≡ key_cmp (key_of set.now)
        (record { name = name.now; rtype = rtype; ident = option_copied ident.entry }) }
{
    set.name
        .cmp(name)
        .then(set.rtype.number().cmp(&rtype.number()))
        .then(ident_cmp(ident_of(&set.routing), ident))
}

/// The order of a set's name and type and of another name and type.
fn group_cmp(set: &RecordSet, name: &Name, rtype: RType) -> Ordering
    ensures { result ≡ group_cmp set.now name.now rtype }
{
    set.name
        .cmp(name)
        .then(set.rtype.number().cmp(&rtype.number()))
}
