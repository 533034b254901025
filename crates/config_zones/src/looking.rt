//! The sets of a zone by their places, one at a time.

ghost use Rattle.std.specs.Prelude.{◌≡◌, ◌<◌, length, slice_get, Some};
ghost use Rattle.config_edits.specs.RecordSetRecord.{RecordSet};
ghost use Rattle.config_edits.specs.Octets.{HasSpelling};
ghost use Rattle.config_edits.specs.Holding.{IsHolding};
ghost use Rattle.config_edits.specs.Zones.{placed_in};
ghost use Rattle.config_edits.specs.Slotted.{sets_of};

use config_edits::{Scratch, Zones};

/// Holds the set at a place of a zone.
pub fn hold_at(zones: &Zones, zone: u32, i: usize, scratch: &mut Scratch)
    requires { i < length (placed_in zones.now.zones zone) }
    ensures held { scratch.new ≡ slice_get (sets_of (placed_in zones.now.zones zone)) i }
    ensures spelled { (set : RecordSet) × (scratch.new ≡ Some set) × HasSpelling set }
    ensures some { IsHolding scratch.new }
{
    zones.well_formed();
    let Some(set) = zones.at(zone, i) else {
        unreachable!();
    };
    if !zones.load(set, scratch) {
        unreachable!();
    }
}

/// The number of the health check that the set at a place of a zone names.
pub fn check_at(zones: &Zones, zone: u32, i: usize) -> Option<u32>
    requires { i < length (placed_in zones.now.zones zone) }
    ensures { (set : RecordSet)
        → slice_get (sets_of (placed_in zones.now.zones zone)) i ≡ Some set → result ≡ set.check }
{
    zones.well_formed();
    let Some(set) = zones.at(zone, i) else {
        unreachable!();
    };
    match zones.watch(set) {
        Some(watch) => watch.check,
        None => unreachable!(),
    }
}
