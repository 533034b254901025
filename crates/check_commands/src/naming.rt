//! The sets that name a health check.

ghost use Rattle.std.specs.Prelude.{◌≡◌};
ghost use Rattle.config_zones.specs.Edited.{hosted_in};
ghost use Rattle.config_zones.specs.Configs.{all_sets};
ghost use Rattle.config_zones.specs.Others.{is_check_named, is_number};
ghost use Rattle.config_zones.specs.Zones.{placed_in};
ghost use Rattle.zone_model.specs.Slotted.{sets_of};
ghost use Rattle.check_commands.specs.Uses.{KnowsUses};

use crate::uses::CheckUses;
use config_zones::{Zones, check_at, zones_follow};

/// Whether a set of a zone names the health check. It looks at what is counted of it, or where this
/// isn't known at all sets.
pub fn is_check_named(zones: &Zones, uses: &CheckUses, id: u32) -> bool
    requires known { KnowsUses uses.now zones.now.zones }
    ensures { result ≡ is_check_named id (all_sets (hosted_in zones.now.zones)) }
{
    zones.well_formed();
    match uses.is_used(id) {
        Some(used) => used,
        None => is_named_in_any(zones, id),
    }
}

/// Whether a set of a zone names it, zone after zone.
fn is_named_in_any(zones: &Zones, id: u32) -> bool
    ensures { result ≡ is_check_named id (all_sets (hosted_in zones.now.zones)) }
{
    zones_follow();
    zones.well_formed();
    let mut last = 0;
    while let Some(zone) = zones.zone_after(last) {
        if is_named_in(zones, zone, id) {
            return true;
        }
        last = zone;
    }
    false
}

/// Whether a set of this zone names it. A zone of which no set names a check isn't gone through.
fn is_named_in(zones: &Zones, zone: u32, id: u32) -> bool
    ensures { result ≡ is_check_named id (sets_of (placed_in zones.now.zones zone)) }
{
    if zones.checked(zone) == 0 {
        return false;
    }
    for i in 0..zones.count(zone) {
        if is_number(check_at(zones, zone, i), id) {
            return true;
        }
    }
    false
}

/// Whether a set names the check of this number.
fn is_number(check: Option<u32>, id: u32) -> bool
    ensures { result ≡ is_number id check }
{
    match check {
        Some(other) => other == id,
        None => false,
    }
}
