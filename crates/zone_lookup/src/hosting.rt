//! The zone that holds a name, as definitions see it.

ghost use Rattle.std.specs.Prelude.{◌≡◌, ◌≢◌, [], ℕ, List, IsTrue};
ghost use Rattle.policy_select.specs.Sections.{is_zone};
ghost use Rattle.policy_select.specs.ZonesOfAnswerModel.{zone_for};
ghost use Rattle.dns_name.specs.Suffix.{EndsWith};
ghost use Rattle.policy_select.specs.Groups.{FewInGroups, sets_in_zone};
ghost use Rattle.policy_select.specs.Zones.{placed_in};
ghost use Rattle.policy_select.specs.Looking.{IsApex};
ghost use Rattle.zone_lookup.specs.Served.{AreServed, FoundOrNone, hosted_of, zone_of};

use dns_name::Name;
use policy_select::{Zones, zones_are_longest};

/// The zone that holds a name, by its number and the name of its apex: that of the longest name
/// (RFC 1034, 4.3.2, step 2).
pub fn find_zone<'a>(zones: &'a Zones, name: &Name) -> Option<(u32, &'a Name)>
    ensures { FoundOrNone zones.now.zones name.now result }
{
    zones_are_longest();
    zones.well_formed();
    match zones.holder(name) {
        Some(found) => Some(found),
        None => None,
    }
}

/// Whether the zone that holds a name is the one of this number.
pub fn is_held_by(zones: &Zones, name: &Name, zone: u32) -> bool
    ensures same { (apex : List (List ℕ)) → result
        ≡ is_zone (zone_of zones.now.zones zone apex) (zone_for (hosted_of zones.now.zones) name.now) }
    ensures inside { (apex : List (List ℕ)) → IsApex zones.now.zones zone apex → IsTrue result
        → EndsWith name.now apex }
{
    zones_are_longest();
    zones.well_formed();
    match zones.zone_for(name) {
        Some(found) => found == zone,
        None => false,
    }
}

/// A zone that is served has a set, and few in each group; it does nothing.
pub fn known_few(zones: &Zones, zone: u32, apex: &Name)
    requires served { AreServed zones.now.zones }
    requires there { IsApex zones.now.zones zone apex.now }
    ensures some { placed_in zones.now.zones zone ≢ [] }
    ensures few { FewInGroups (sets_in_zone zones.now.zones zone) }
{
    zones.well_formed();
}
