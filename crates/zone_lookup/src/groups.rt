//! The sets of a name by their type.

ghost use Rattle.policy_select.specs.Sections.{asked_group};
ghost use Rattle.policy_select.specs.Groups.{sets_in_zone};
ghost use Rattle.policy_select.specs.ZonesOfZoneModel.{group};
ghost use Rattle.zone_lookup.specs.Cuts.{GroupOrNone};

use dns_name::Name;
use policy_select::{Group, Zones, asked_groups, find_group};
use rdata_layout::RType;

/// The sets of a name and type of a zone, or none where there are none.
pub fn group_of(zones: &Zones, zone: u32, name: &Name, rtype: RType) -> Option<Group>
    ensures { GroupOrNone zones.now.zones zone
        (group (sets_in_zone zones.now.zones zone) name.now rtype) result }
{
    let found = find_group(zones, zone, name, rtype);
    if found.length == 0 {
        return None;
    }
    Some(found)
}

/// The same by the number of a type, which may be none that sets have.
pub fn asked_group(zones: &Zones, zone: u32, name: &Name, qtype: u16) -> Option<Group>
    ensures { GroupOrNone zones.now.zones zone
        (asked_group (sets_in_zone zones.now.zones zone) name.now qtype) result }
{
    asked_groups();
    match RType::from_number(qtype) {
        Some(rtype) => group_of(zones, zone, name, rtype),
        None => None,
    }
}
