//! The target group of a set.

ghost use Rattle.alias_links.specs.Links.{LinksOrNone};

use zone_table::{Group, SetRef, Zones};

/// The target group of the alias that a reference names. None where it names no set, or one that
/// is no alias.
pub fn links_of(zones: &Zones, set: SetRef) -> Option<Group>
    ensures { LinksOrNone zones.now.zones set result }
{
    let Some((target, rtype)) = zones.target(set) else {
        return None;
    };
    Some(zones.group(set.zone, &target, rtype))
}
