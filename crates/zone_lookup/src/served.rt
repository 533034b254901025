//! Whether queries can be answered from zones.

ghost use Rattle.std.specs.Prelude.{◌≡◌, ◌≢◌, ◌≤◌, ◌<◌, ◌↔◌, ℕ, [], IsTrue, length, slice_get, Some};
ghost use Rattle.policy_select.specs.Groups.{FewInGroups, sets_in_zone};
ghost use Rattle.policy_select.specs.RecordSetRecord.{RecordSet};
ghost use Rattle.policy_select.specs.Zones.{placed_in};
ghost use Rattle.policy_select.specs.ZonesOfZoneModel.{group};
ghost use Rattle.zone_lookup.specs.Served.{AreServed};

use policy_select::{Scratch, Zones, few_by_each_set, find_group};

/// The most sets of a group (Route 53 quotas).
const MOST: usize = 100;

/// Whether each of the zones has a set, and no group of more than 100. The scratch holds one set at
/// a time.
pub fn are_served(zones: &Zones, scratch: &mut Scratch) -> bool
    ensures { IsTrue result ↔ AreServed zones.now.zones }
{
    zones.well_formed();
    let mut last = 0;
    while let Some(zone) = zones.zone_after(last) {
        if !can_answer(zones, zone, scratch) {
            return false;
        }
        last = zone;
    }
    true
}

/// Whether a zone has a set, and no group of more than 100.
fn can_answer(zones: &Zones, zone: u32, scratch: &mut Scratch) -> bool
    ensures { IsTrue result
        ↔ ((placed_in zones.now.zones zone ≢ []) × FewInGroups (sets_in_zone zones.now.zones zone)) }
{
    zones.count(zone) > 0 && has_few(zones, zone, scratch)
}

/// Whether a zone has no group of more than 100 sets.
fn has_few(zones: &Zones, zone: u32, scratch: &mut Scratch) -> bool
    ensures { IsTrue result ↔ FewInGroups (sets_in_zone zones.now.zones zone) }
{
    few_by_each_set();
    for i in 0..zones.count(zone) {
        if count_at(zones, zone, i, scratch) > MOST {
            return false;
        }
    }
    true
}

/// How many sets the group of the set at a place of a zone has.
fn count_at(zones: &Zones, zone: u32, i: usize, scratch: &mut Scratch) -> usize
    requires { i < length (placed_in zones.now.zones zone) }
    ensures { (set : RecordSet)
        × (slice_get (sets_in_zone zones.now.zones zone) i ≡ Some set)
        × (result ≡ length (group (sets_in_zone zones.now.zones zone) set.name set.rtype)) }
{
    hold_at(zones, zone, i, scratch);
    find_group(zones, zone, &scratch.name(), scratch.rtype()).length
}

/// Holds the set at a place of a zone.
pub(crate) fn hold_at(zones: &Zones, zone: u32, i: usize, scratch: &mut Scratch)
    requires { i < length (placed_in zones.now.zones zone) }
    ensures { (set : RecordSet) × (scratch.new ≡ Some set)
        × (slice_get (sets_in_zone zones.now.zones zone) i ≡ Some set) }
{
    zones.well_formed();
    let Some(set) = zones.at(zone, i) else {
        unreachable!();
    };
    if !zones.load(set, scratch) {
        unreachable!();
    }
}
