//! The snapshot of a configuration.

ghost use Rattle.std.specs.Prelude.{◌≡◌, ◌≤◌, IfOk, length};
ghost use Rattle.config_zones.specs.Sound.{Sound};
ghost use Rattle.config_zones.specs.Configured.{config_of};
ghost use Rattle.snapshot_octets.specs.Octets.{snapshot};
ghost use Rattle.snapshot_writing.specs.Versions.{version_spelled};

use crate::collections::append_told_collections;
use crate::numbers::{append_checks, append_told_number};
use crate::zones::append_zones;
use config_zones::{Scratch, Zones, counts_agree};
use health_check::CheckTable;
use octets::{OutOfMemory, append, four_octets};
use snapshot_octets::{sound_are_short, sound_have_snapshots};
use std::alloc::Global;

/// The snapshot of the configuration that zones, with their collections, and checks stand for, with
/// the number that the next zone gets. A compaction takes it.
pub fn write_snapshot(
    alloc: Global,
    zones: &Zones,
    checks: &CheckTable,
    next: u32,
) -> Result<Vec<u8>, OutOfMemory>
    requires { Sound (config_of zones.now checks.now.checks next) }
    ensures spelled { IfOk result (λ octets. octets.items
        ≡ snapshot (config_of zones.now checks.now.checks next)) }
    ensures short { IfOk result (λ octets. length octets.items ≤ 268435435) }
{
    counts_agree();
    sound_are_short();
    sound_have_snapshots();
    zones.well_formed();
    let collections = zones.collections();
    let told = collections.next_number() > 1;
    let mut octets = Vec::new(alloc);
    let mut scratch = Scratch::new(alloc)?;
    append(&[version_of(told)], &mut octets)?;
    append(&four_octets(next), &mut octets)?;
    append(&four_octets(checks.next_number()), &mut octets)?;
    append_told_number(told, collections.next_number(), &mut octets)?;
    append_checks(checks.as_slice(), &mut octets)?;
    append_told_collections(told, collections.as_slice(), &mut octets)?;
    append_zones(zones, &mut scratch, &mut octets)?;
    Ok(octets)
}

/// The version that is written: the third where there ever was a collection, else the second.
fn version_of(told: bool) -> u8
    ensures { result ≡ version_spelled told }
{
    if told { 3 } else { 2 }
}
