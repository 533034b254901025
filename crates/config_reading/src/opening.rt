//! A zone that was read, put into the table behind those before it.

ghost use Rattle.std.specs.Prelude.{◌≡◌, Err, OnOk};
ghost use Rattle.config_zones.specs.Sound.{Sound};
ghost use Rattle.config_reading.specs.Reading.{with_zone, zone_found};
ghost use Rattle.config_zones.specs.Configured.{config_of};
ghost use Rattle.snapshot_reading.specs.declared.faults.SnapshotFault.TheVariants.{Bad};

use crate::making::make;
use crate::soundness::opens_soundly;
use config_zones::{Sets, ZoneEdit, Zones, edits_are_told};
use health_check::CheckTable;
use octets::OutOfMemory;
use snapshot_reading::{FoundZone, SnapshotFault};
use std::alloc::Global;

/// Puts a zone into a table whose configuration is sound, where it is sound with the zone too.
pub fn open(
    alloc: Global,
    zones: &mut Zones,
    checks: &CheckTable,
    next_zone: u32,
    zone: FoundZone,
) -> Result<(), SnapshotFault>
    requires { Sound (config_of zones.old checks.now.checks next_zone) }
    ensures config { OnOk result (config_of zones.new checks.now.checks next_zone
        ≡ with_zone (config_of zones.old checks.now.checks next_zone) (zone_found zone)) }
    ensures sound { OnOk result (Sound (config_of zones.new checks.now.checks next_zone)) }
    ensures bad { result ≡ Err Bad
        → Sound (with_zone (config_of zones.old checks.now.checks next_zone) (zone_found zone))
        → ⊥ }
{
    edits_are_told();
    zones.well_formed();
    let edit = ZoneEdit::Begin {
        zone: zone.id,
        name: zone.apex,
        sets: Sets::from_vec(zone.sets),
    };
    match opens_soundly(alloc, zones, checks, next_zone, &edit) {
        Ok(true) => {}
        Ok(false) => return Err(SnapshotFault::Bad),
        Err(OutOfMemory) => return Err(SnapshotFault::OutOfMemory),
    }
    let Ok(()) = make(alloc, zones, edit) else {
        return Err(SnapshotFault::OutOfMemory);
    };
    zones.well_formed();
    Ok(())
}
