//! The whole of a snapshot.

ghost use Rattle.std.specs.Prelude.{◌≡◌, Err, IfOk};
ghost use Rattle.config_reading.specs.Reading.{IsOfNone, IsOfSound};
ghost use Rattle.config_zones.specs.Configured.{config_of};
ghost use Rattle.snapshot_reading.specs.declared.faults.SnapshotFault.TheVariants.{Bad};

use crate::fronts::restore;
use crate::zones::read_zones;
use config_zones::{Zones, refusals_are_told};
use health_check::CheckTable;
use snapshot_reading::{
    SnapshotFault, read_front, snapshots_are_told, snapshots_read_back, snapshots_read_in_parts,
};
use std::alloc::Global;

/// The sound configuration of which octets are a snapshot, in any version: its zones and
/// collections, its health checks, and the number that the next zone gets.
///
/// They are Bad where they are a snapshot of no sound configuration, and nowhere else. Memory may be
/// wanted at any point.
pub fn read_config(alloc: Global, octets: &[u8]) -> Result<(Zones, CheckTable, u32), SnapshotFault>
    ensures found { IfOk result (λ r. IsOfSound octets.now (config_of r.0 r.1.checks r.2)) }
    ensures bad { result ≡ Err Bad → IsOfNone octets.now }
{
    snapshots_read_in_parts();
    snapshots_read_back();
    snapshots_are_told();
    refusals_are_told();
    let (front, start) = match read_front(alloc, octets) {
        Ok(read) => read,
        Err(fault) => return Err(fault),
    };
    let count = front.zones;
    let (mut zones, checks, next_zone) = match restore(alloc, front) {
        Ok(restored) => restored,
        Err(fault) => return Err(fault),
    };
    match read_zones(alloc, octets, start, count, &mut zones, &checks, next_zone) {
        Ok(end) => {
            if end != octets.len() {
                return Err(SnapshotFault::Bad);
            }
            Ok((zones, checks, next_zone))
        }
        Err(fault) => Err(fault),
    }
}
