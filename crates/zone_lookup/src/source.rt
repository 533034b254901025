//! The name whose sets are taken for a name (RFC 4592, 3.3.1).

ghost use Rattle.std.specs.Prelude.{◌≡◌};
ghost use Rattle.policy_select.specs.Names.{source};
ghost use Rattle.policy_select.specs.Groups.{sets_in_zone};
ghost use Rattle.zone_lookup.specs.Standing.{IsNearest};

use crate::standing::exists_near;
use dns_name::Name;
use policy_select::{Zones, enclosers_are_closest, names_exist};

/// How many sets stand in front of the wildcard below the apex, mostly: the NS and the SOA set of the
/// apex.
const AT_APEX: usize = 2;

/// The name whose sets are taken for a name of a zone: itself where it exists, else the wildcard
/// below its closest encloser where that exists. There is none else. It is told by the longest name
/// at or above it that exists. No set is held.
pub(crate) fn source_from(
    zones: &Zones,
    zone: u32,
    apex: &Name,
    name: &Name,
    nearest: &Name,
) -> Option<Name>
    requires { IsNearest (sets_in_zone zones.now.zones zone) name.now nearest.now }
    ensures { result ≡ source (sets_in_zone zones.now.zones zone) name.now }
{
    names_exist();
    enclosers_are_closest();
    if nearest.is_same(name) {
        return Some(*name);
    }
    if !zones.may_have_wildcards(zone) {
        return None;
    }
    let Some(wildcard) = nearest.wildcard() else {
        return None;
    };
    if exists_near(zones, zone, &wildcard, near_of(apex, nearest)) {
        return Some(wildcard);
    }
    None
}

/// A place at which the wildcard below a name may stand. That below the apex is mostly the first
/// name of its zone.
fn near_of(apex: &Name, nearest: &Name) -> Option<usize> {
    if nearest.is_same(apex) {
        return Some(AT_APEX);
    }
    None
}
