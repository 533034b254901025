//! The sets of a zone by their places, one at a time.

ghost use Rattle.std.specs.Prelude.{◌≡◌, ◌≢◌, ◌<◌, ◌+◌, length, slice_get, IsTrue, ◌↔◌, Some};
ghost use Rattle.record_set.specs.Sets.{key_of};
ghost use Rattle.record_set.specs.declared.sets.RecordSet.{RecordSet};
ghost use Rattle.zone_table.specs.Holding.{IsHolding};
ghost use Rattle.zone_table.specs.Telling.{target_of};
ghost use Rattle.zone_table.specs.Changes.{IsKeyOf};
ghost use Rattle.zone_table.specs.Looking.{IsGroupNow};
ghost use Rattle.alias_links.specs.After.{sets_in};
ghost use Rattle.alias_links.specs.Aliases.{is_alias_set};

use crate::keys::is_key_of;
use dns_name::Name;
use rdata_layout::RType;
use record_set::SetKey;
use zone_table::{Group, Scratch, Zones};

/// Holds the set at a place of a zone.
pub fn hold_at(zones: &Zones, zone: u32, i: usize, scratch: &mut Scratch)
    requires { i < length (sets_in zones.now.zones zone) }
    ensures held { scratch.new ≡ slice_get (sets_in zones.now.zones zone) i }
    ensures some { IsHolding scratch.new }
{
    zones.well_formed();
    let Some(set) = zones.at(zone, i) else {
        unreachable!();
    };
    if !zones.load(set, scratch) {
        unreachable!();
    }
}

/// The name and the type of the target group of the set at a place of a zone. None where the set
/// is no alias.
pub fn target_at(zones: &Zones, zone: u32, i: usize) -> Option<(Name, RType)>
    requires { i < length (sets_in zones.now.zones zone) }
    ensures { (set : RecordSet) → slice_get (sets_in zones.now.zones zone) i ≡ Some set
        → result ≡ target_of set }
{
    zones.well_formed();
    let Some(set) = zones.at(zone, i) else {
        unreachable!();
    };
    zones.target(set)
}

/// Whether the set at a place of a group stays: its key is not one of those that are removed.
pub fn stays_at(
    zones: &Zones,
    group: Group,
    i: usize,
    remove: &[SetKey],
    scratch: &mut Scratch,
) -> bool
    requires group { IsGroupNow zones.now.zones group }
    requires within { i < group.length }
    ensures { (set : RecordSet)
        → slice_get (sets_in zones.now.zones group.zone) (group.start + i) ≡ Some set
        → IsTrue result ↔ (IsKeyOf remove.now (key_of set) → ⊥) }
{
    hold_member(zones, group, i, scratch);
    !is_key_of(remove, &scratch.key())
}

/// Whether the set at a place of a group is an alias.
pub fn is_alias_at(zones: &Zones, group: Group, i: usize) -> bool
    requires group { IsGroupNow zones.now.zones group }
    requires within { i < group.length }
    ensures { (set : RecordSet)
        → slice_get (sets_in zones.now.zones group.zone) (group.start + i) ≡ Some set
        → result ≡ is_alias_set set }
{
    zones.well_formed();
    zones.target(zones.member(group, i)).is_some()
}

/// Holds the set at a place of a group.
fn hold_member(zones: &Zones, group: Group, i: usize, scratch: &mut Scratch)
    requires group { IsGroupNow zones.now.zones group }
    requires within { i < group.length }
    ensures held { scratch.new
        ≡ slice_get (sets_in zones.now.zones group.zone) (group.start + i) }
    ensures some { IsHolding scratch.new }
{
    zones.well_formed();
    let set = zones.member(group, i);
    if !zones.load(set, scratch) {
        unreachable!();
    }
}
