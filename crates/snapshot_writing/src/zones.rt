//! Zones, and their sets as they are stored.

ghost use Rattle.std.specs.Prelude.{◌≡◌, ◌<◌, ◌^◌, ◌++◌, ℕ, IfSome, List, length, OnOk};
ghost use Rattle.std.specs.List.{flat_map};
ghost use Rattle.octet_reading.specs.Rules.{list_octets};
ghost use Rattle.config_zones.specs.Edited.{hosted_in};
ghost use Rattle.config_zones.specs.Octets.{set_octets};
ghost use Rattle.config_zones.specs.Holding.{IsHolding};
ghost use Rattle.snapshot_octets.specs.Octets.{counted_octets, zone_octets};
ghost use Rattle.config_zones.specs.Zones.{IsZoneId, placed_in};
ghost use Rattle.zone_model.specs.Slotted.{sets_of};
ghost use Rattle.config_zones.specs.Counted.{sets_in_all};
ghost use Rattle.config_zones.specs.Looking.{IsApex};

use config_zones::{Scratch, Zones, hold_at, zones_follow};
use octets::{OutOfMemory, append, four_octets, two_octets};

/// Appends the number of zones, and these by rising number.
pub fn append_zones(
    zones: &Zones,
    scratch: &mut Scratch,
    into: &mut Vec<u8>,
) -> Result<(), OutOfMemory>
    requires few { length zones.now.zones < 2 ^ 16 }
    requires sets { sets_in_all zones.now.zones < 2 ^ 32 }
    ensures { OnOk result (into.new.items
        ≡ into.old.items ++ list_octets zone_octets (hosted_in zones.now.zones)) }
{
    append(&two_octets(zones.len() as u16), into)?;
    append_each_zone(zones, scratch, into)
}

/// Appends zones one behind another.
fn append_each_zone(
    zones: &Zones,
    scratch: &mut Scratch,
    into: &mut Vec<u8>,
) -> Result<(), OutOfMemory>
    requires { sets_in_all zones.now.zones < 2 ^ 32 }
    ensures { OnOk result (into.new.items
        ≡ into.old.items ++ flat_map zone_octets (hosted_in zones.now.zones)) }
{
    zones_follow();
    zones.well_formed();
    let mut last = 0;
    while let Some(zone) = zones.zone_after(last) {
        append_zone(zones, zone, scratch, into)?;
        last = zone;
    }
    Ok(())
}

/// Appends a zone: its number, its name, and its sets.
fn append_zone(
    zones: &Zones,
    zone: u32,
    scratch: &mut Scratch,
    into: &mut Vec<u8>,
) -> Result<(), OutOfMemory>
    requires there { IsZoneId zones.now.zones zone }
    requires sets { sets_in_all zones.now.zones < 2 ^ 32 }
    ensures { OnOk result ((apex : List (List ℕ)) × IsApex zones.now.zones zone apex
        × (into.new.items ≡ into.old.items ++ zone_octets (record {
          id = zone;
          apex = apex;
          sets = sets_of (placed_in zones.now.zones zone);
        }))) }
{
    let Some(apex) = zones.apex(zone) else {
        unreachable!();
    };
    append(&four_octets(zone), into)?;
    append(apex.octets(), into)?;
    append_sets(zones, zone, scratch, into)
}

/// Appends the number of the sets of a zone, and these.
fn append_sets(
    zones: &Zones,
    zone: u32,
    scratch: &mut Scratch,
    into: &mut Vec<u8>,
) -> Result<(), OutOfMemory>
    requires { length (placed_in zones.now.zones zone) < 2 ^ 32 }
    ensures { OnOk result (into.new.items
        ≡ into.old.items ++ counted_octets set_octets (sets_of (placed_in zones.now.zones zone))) }
{
    append(&four_octets(zones.count(zone) as u32), into)?;
    append_each_set(zones, zone, scratch, into)
}

/// Appends the sets of a zone one behind another.
fn append_each_set(
    zones: &Zones,
    zone: u32,
    scratch: &mut Scratch,
    into: &mut Vec<u8>,
) -> Result<(), OutOfMemory>
    ensures { OnOk result (into.new.items
        ≡ into.old.items ++ flat_map set_octets (sets_of (placed_in zones.now.zones zone))) }
{
    for i in 0..zones.count(zone) {
        hold_at(zones, zone, i, scratch);
        append_held(scratch, into)?;
    }
    Ok(())
}

/// Appends the set that is held.
fn append_held(scratch: &Scratch, into: &mut Vec<u8>) -> Result<(), OutOfMemory>
    requires { IsHolding scratch.now }
    ensures { OnOk result
        (IfSome scratch.now (λ set. into.new.items ≡ into.old.items ++ set_octets set)) }
{
    append(scratch.bytes(), into)
}
