//! The sets of a group, one at a time.

ghost use Rattle.std.specs.Prelude.{◌≡◌, ◌<◌, ◌≤◌, ◌++◌, length, slice_get, IfSome, Some};
ghost use Rattle.zone_table.specs.RecordSetRecord.{RecordSet};
ghost use Rattle.zone_table.specs.Octets.{HasSpelling};
ghost use Rattle.zone_table.specs.Policies.{PolicyIsAt};
ghost use Rattle.zone_table.specs.Holding.{IsHolding};
ghost use Rattle.zone_table.specs.Looking.{IsGroupNow, slots_in};
ghost use Rattle.policy_select.specs.Members.{AreMembers, BeginsWithPolicy, IsFrontOfPolicy};
ghost use Rattle.policy_select.specs.Groups.{flags_in, sets_in, sets_in_zone};
ghost use Rattle.zone_table.specs.Sets.{group};

use crate::view::HealthView;
use dns_name::Name;
use rdata_layout::RType;
use routing::Routing;
use zone_table::{Group, Scratch, SetRef, Zones};

/// No policy has more octets.
pub(crate) const MOST: usize = 263;

/// The sets of a name and type of a zone.
pub fn find_group(zones: &Zones, zone: u32, name: &Name, rtype: RType) -> Group
    ensures now { IsGroupNow zones.now.zones result }
    ensures zone { result.zone ≡ zone }
    ensures sets { sets_in zones.now.zones result
        ≡ group (sets_in_zone zones.now.zones zone) name.now rtype }
    ensures count { result.length
        ≡ length (group (sets_in_zone zones.now.zones zone) name.now rtype) }
{
    zones.group(zone, name, rtype)
}

/// Loads the set at a place of a group.
pub fn load_member(zones: &Zones, group: Group, i: usize, scratch: &mut Scratch)
    requires group { IsGroupNow zones.now.zones group }
    requires within { i < group.length }
    ensures loaded { scratch.new ≡ slice_get (sets_in zones.now.zones group) i }
    ensures some { (set : RecordSet) × (scratch.new ≡ Some set) × HasSpelling set }
{
    zones.well_formed();
    let set = zones.member(group, i);
    if !zones.load(set, scratch) {
        unreachable!();
    }
}

/// Loads the set at a place of a group, and tells its routing policy.
pub fn routing_at(zones: &Zones, group: Group, i: usize, scratch: &mut Scratch) -> Routing
    requires group { IsGroupNow zones.now.zones group }
    requires within { i < group.length }
    ensures routing { (set : RecordSet) × (slice_get (sets_in zones.now.zones group) i ≡ Some set)
        × (result ≡ set.routing) × HasSpelling set }
    ensures held { scratch.new ≡ slice_get (sets_in zones.now.zones group) i }
{
    load_member(zones, group, i, scratch);
    scratch.routing()
}

/// The place at which the policy of the set that is held stands among its octets.
pub(crate) fn policy_place(scratch: &Scratch) -> usize
    requires { IsHolding scratch.now }
    ensures { IfSome scratch.now (λ set. PolicyIsAt set result) }
{
    scratch.bytes().len() - scratch.policy().len()
}

/// The reference of the set at a place of a group.
fn member_at(group: Group, slots: &[u32], i: usize) -> SetRef
    requires within { i < length slots.now }
    ensures zone { result.zone ≡ group.zone }
    ensures slot { slice_get slots.now i ≡ Some result.slot }
{
    SetRef {
        zone: group.zone,
        slot: slots[i],
    }
}

/// What stands of the policy of the set at a place of a group up to the end of the 32 octets of the
/// set behind those among which it begins, lent: in two parts, one behind the other.
#[inline(always)]
pub(crate) fn policy_pieces<'a>(
    zones: &'a Zones,
    group: Group,
    slots: &[u32],
    at: usize,
    i: usize,
) -> (&'a [u8], &'a [u8])
    requires group { IsGroupNow zones.now.zones group }
    requires slots { AreMembers zones.now.zones group slots.now at }
    requires within { i < group.length }
    ensures { (set : RecordSet) × (slice_get (sets_in zones.now.zones group) i ≡ Some set)
        × IsFrontOfPolicy (result.0.now ++ result.1.now) set }
{
    zones.pieces(member_at(group, slots, i), at)
}

/// Octets that begin with the policy of the set at a place of a group, copied to a buffer.
pub(crate) fn policy_copied<'a>(
    zones: &Zones,
    group: Group,
    slots: &[u32],
    at: usize,
    i: usize,
    buffer: &'a mut [u8],
) -> &'a [u8]
    requires group { IsGroupNow zones.now.zones group }
    requires slots { AreMembers zones.now.zones group slots.now at }
    requires within { i < group.length }
    requires room { 263 ≤ length buffer.old }
    ensures { (set : RecordSet) × (slice_get (sets_in zones.now.zones group) i ≡ Some set)
        × BeginsWithPolicy result.now set }
{
    zones.policy(member_at(group, slots, i), at, buffer)
}

/// Whether the set at a place of a group is healthy.
pub(crate) fn is_member_healthy<V: HealthView>(
    zones: &Zones,
    group: Group,
    slots: &[u32],
    view: &V,
    i: usize,
) -> bool
    requires slots { slots.now ≡ slots_in zones.now.zones group }
    requires within { i < length slots.now }
    ensures { slice_get (flags_in zones.now.zones (V.test view.now) group) i ≡ Some result }
{
    view.is_healthy(member_at(group, slots, i))
}
