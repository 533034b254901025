//! What stands in front of the zones of a snapshot, made a configuration without zones.

ghost use Rattle.std.specs.Prelude.{◌≡◌, ◌↔◌, Err, IfOk, IsTrue};
ghost use Rattle.config_zones.specs.Sound.{Sound};
ghost use Rattle.config_reading.specs.Reading.{config_in_front};
ghost use Rattle.config_zones.specs.Configured.{config_of};
ghost use Rattle.snapshot_reading.specs.declared.faults.SnapshotFault.TheVariants.{Bad};

use crate::making::make;
use cidr_routing::Collections;
use config_zones::{ZoneEdit, Zones};
use health_check::CheckTable;
use octets::OutOfMemory;
use snapshot_reading::{Front, SnapshotFault};
use std::alloc::Global;

/// A table without zones, with the collections, the checks, and the number that the next zone gets;
/// where these are sound.
pub fn restore(alloc: Global, front: Front) -> Result<(Zones, CheckTable, u32), SnapshotFault>
    ensures config { IfOk result (λ r. config_of r.0 r.1.checks r.2 ≡ config_in_front front) }
    ensures sound { IfOk result (λ _. Sound (config_in_front front)) }
    ensures bad { result ≡ Err Bad → Sound (config_in_front front) → ⊥ }
{
    match is_sound(alloc, &front) {
        Ok(true) => {}
        Ok(false) => return Err(SnapshotFault::Bad),
        Err(OutOfMemory) => return Err(SnapshotFault::OutOfMemory),
    }
    let Front {
        next_zone,
        next_check,
        next_collection,
        checks,
        collections,
        zones: _,
    } = front;
    let Ok(collections) = Collections::restore(alloc, next_collection, collections) else {
        return Err(SnapshotFault::OutOfMemory);
    };
    let mut zones = Zones::new(alloc);
    match make(alloc, &mut zones, ZoneEdit::Collections(collections)) {
        Ok(()) => Ok((zones, CheckTable::restore(next_check, checks), next_zone)),
        Err(_) => Err(SnapshotFault::OutOfMemory),
    }
}

/// Whether the configuration that has no zones yet is sound.
fn is_sound(alloc: Global, front: &Front) -> Result<bool, OutOfMemory>
    ensures { IfOk result (λ is. IsTrue is ↔ Sound (config_in_front front.now)) }
{
    if front.next_zone == 0 {
        return Ok(false);
    }
    if !health_check::is_sound(front.next_check, &front.checks) {
        return Ok(false);
    }
    cidr_routing::is_sound(alloc, front.next_collection, &front.collections)
}
