//! The zones of a snapshot, one behind another.

ghost use Rattle.std.specs.Prelude.{◌≡◌, Err, IfOk, length};
ghost use Rattle.config_zones.specs.Edited.{hosted_in};
ghost use Rattle.config_reading.specs.Reading.{IsOfNone, IsReadSoundly};
ghost use Rattle.config_zones.specs.Configured.{config_of};
ghost use Rattle.snapshot_reading.specs.declared.faults.SnapshotFault.TheVariants.{Bad};

use crate::opening::open;
use config_zones::{Zones, counts_agree, refusals_are_told};
use health_check::CheckTable;
use snapshot_reading::{SnapshotFault, read_zone, snapshots_read_back, snapshots_read_in_parts};
use std::alloc::Global;

/// Reads zones up to so many, and puts each into the table, where the configuration stays sound.
/// The answer is the place behind the last one.
pub fn read_zones(
    alloc: Global,
    octets: &[u8],
    start: usize,
    count: u16,
    zones: &mut Zones,
    checks: &CheckTable,
    next_zone: u32,
) -> Result<usize, SnapshotFault>
    requires { IsReadSoundly octets.now (config_of zones.old checks.now.checks next_zone) count
        start }
    ensures read { IfOk result (λ end. IsReadSoundly octets.now
        (config_of zones.new checks.now.checks next_zone) count end) }
    ensures all { IfOk result (λ _. length (hosted_in zones.new.zones) ≡ count) }
    ensures bad { result ≡ Err Bad → IsOfNone octets.now }
{
    snapshots_read_in_parts();
    snapshots_read_back();
    refusals_are_told();
    counts_agree();
    let mut at = start;
    while zones.len() < count as usize {
        let (zone, next) = match read_zone(alloc, octets, at) {
            Ok(read) => read,
            Err(fault) => return Err(fault),
        };
        if let Err(fault) = open(alloc, zones, checks, next_zone, zone) {
            return Err(fault);
        }
        at = next;
    }
    Ok(at)
}
