//! Where the sets of names begin in a zone.

ghost use Rattle.std.specs.Prelude.{◌≡◌, ◌↔◌, ℕ, List, IfOk};
ghost use Rattle.std.specs.List.Sorted.{IsStrictlyIncreasing};
ghost use Rattle.zone_table.specs.Zones.{placed_in};
ghost use Rattle.zone_table.specs.Slotted.{sets_of};
ghost use Rattle.zone_table.specs.Sets.{IsAmong};
ghost use Rattle.batch_names.specs.Starts.{AreRisingStarts, AreStarts, StartOrNone};

use batch_model::Change;
use dns_name::Name;
use octets::OutOfMemory;
use rdata::RType;
use std::alloc::Global;
use zone_table::Zones;

/// How far apart places are at which one is no hint of the other: from there on halving a whole zone
/// takes as many comparisons.
const FAR: usize = 32;

/// Where sets were found, and whether that tells where the next ones may stand. Batches mostly name
/// sets in zone order.
#[derive(Drop)]
struct Near {
    place: usize,
    is_near: bool,
}

impl Near {
    /// A place at which the next sets may stand, which may be wrong.
    fn hint(&self) -> Option<usize> {
        if self.is_near { Some(self.place) } else { None }
    }

    /// Sets were found at a place.
    fn found(&mut self, place: usize) {
        self.is_near = place.abs_diff(self.place) < FAR;
        self.place = place;
    }
}

/// Where the sets of a name begin, if the zone has any. They may stand near those of the name before.
fn start_of(zones: &Zones, zone: u32, name: &Name, near: &mut Near) -> Option<usize>
    ensures { StartOrNone (sets_of (placed_in zones.now.zones zone)) name.now result }
{
    zones.well_formed();
    // No type is lower, and a set without an identifier comes first.
    let start = zones.group_near(zone, name, RType::A, near.hint()).start;
    near.found(start);
    if zones.has_name(zone, start, name) {
        return Some(start);
    }
    None
}

/// Where the sets of each name of the changes begin, change by change.
fn each_start(
    alloc: Global,
    zones: &Zones,
    zone: u32,
    changes: &[Change],
) -> Result<Vec<usize>, OutOfMemory>
    ensures { IfOk result (λ starts. AreStarts (sets_of (placed_in zones.now.zones zone))
        changes.now starts.items) }
{
    let mut starts = Vec::with_capacity(alloc, changes.len())?;
    let mut near = Near {
        place: 0,
        is_near: false,
    };
    for change in changes {
        if let Some(start) = start_of(zones, zone, &change.set.name, &mut near) {
            starts.push(start)?;
        }
    }
    Ok(starts)
}

/// Where the sets of each name of the changes begin, by rising place.
pub fn rising_starts(
    alloc: Global,
    zones: &Zones,
    zone: u32,
    changes: &[Change],
) -> Result<Vec<usize>, OutOfMemory>
    ensures { IfOk result (λ starts. AreRisingStarts (sets_of (placed_in zones.now.zones zone))
        changes.now starts.items) }
{
    let starts = each_start(alloc, zones, zone, changes)?;
    Ok(rise(starts))
}

/// The numbers in rising order, each once.
fn rise(mut numbers: Vec<usize>) -> Vec<usize>
    ensures rising { IsStrictlyIncreasing result.items }
    ensures same { (n : ℕ) → IsAmong result.items n ↔ IsAmong numbers.items n }
{
    numbers.sort_unstable();
    numbers.dedup();
    numbers
}
