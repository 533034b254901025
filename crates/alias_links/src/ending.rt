//! Aliases that come, lead to sets that are none, and end all walks that come to them.

ghost use Rattle.std.specs.Prelude.{◌≡◌, ◌↔◌, IsTrue, true};
ghost use Rattle.record_set.specs.Reasons.{IsAlias};
ghost use Rattle.zone_table.specs.Sets.{group, is_of_group};
ghost use Rattle.alias_links.specs.After.{sets_in};
ghost use Rattle.alias_links.specs.Laws.{AllEndWalks, EndsWalks, HasAlias};

use crate::keys::{is_alias, is_of_group};
use crate::places::is_alias_at;
use dns_name::Name;
use rdata_layout::RType;
use record_set::{Body, RecordSet};
use zone_table::Zones;

/// Whether each alias among sets that come to a zone ends all walks that come to it: none of its target group is an
/// alias, nor comes as one, and its own group has an alias, or no set.
pub fn all_end_walks(zones: &Zones, zone: u32, add: &[RecordSet]) -> bool
    ensures { IsTrue result ↔ AllEndWalks (sets_in zones.now.zones zone) add.now }
{
    for i in 0..add.len() {
        if !ends_walks(zones, zone, &add[i], add) {
            return false;
        }
    }
    true
}

/// Whether a set that comes does, where it is an alias.
fn ends_walks(zones: &Zones, zone: u32, set: &RecordSet, add: &[RecordSet]) -> bool
    ensures { IsTrue result
        ↔ (IsAlias set.now.body → EndsWalks (sets_in zones.now.zones zone) add.now set.now) }
{
    let Body::Alias { target, .. } = &set.body else {
        return true;
    };
    if has_alias_in(zones, zone, target, set.rtype) {
        return false;
    }
    if adds_alias_to(add, target, set.rtype) {
        return false;
    }
    if zones.group(zone, &set.name, set.rtype).length == 0 {
        return true;
    }
    has_alias_in(zones, zone, &set.name, set.rtype)
}

/// Whether a group of a zone has an alias.
fn has_alias_in(zones: &Zones, zone: u32, name: &Name, rtype: RType) -> bool
    ensures { IsTrue result ↔ HasAlias (group (sets_in zones.now.zones zone) name.now rtype) }
{
    let group = zones.group(zone, name, rtype);
    for i in 0..group.length {
        if is_alias_at(zones, group, i) {
            return true;
        }
    }
    false
}

/// Whether an alias of a name and a type is among some sets.
fn adds_alias_to(sets: &[RecordSet], name: &Name, rtype: RType) -> bool
    ensures { IsTrue result ↔ HasAlias (group sets.now name.now rtype) }
{
    for i in 0..sets.len() {
        if is_alias_of(&sets[i], name, rtype) {
            return true;
        }
    }
    false
}

/// Whether a set is an alias of a name and a type.
fn is_alias_of(set: &RecordSet, name: &Name, rtype: RType) -> bool
    ensures { IsTrue result ↔ (IsAlias set.now.body × (is_of_group name.now rtype set.now ≡ true)) }
{
    if !is_alias(set) {
        return false;
    }
    is_of_group(set, name, rtype)
}
