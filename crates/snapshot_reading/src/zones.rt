//! The zones of a snapshot, one by one.

ghost use Rattle.octet_reading.specs.Readers.{so_many};
ghost use Rattle.octet_reading.specs.Reading.{GivesOrStops};
ghost use Rattle.snapshot_octets.specs.ReadingOfCommandCodec.{set_at};
ghost use Rattle.snapshot_octets.specs.Reading.{zone_at};
ghost use Rattle.snapshot_reading.specs.Parts.{AddsSet, hosted_of, sets_at};
ghost use Rattle.snapshot_reading.specs.Places.{GivesOrNone, found_at};

use crate::faults::SnapshotFault;
use crate::places::{from_place, place_of};
use dns_name::Name;
use octet_reading::{Fault, Stop, four_at, name_at};
use octets::behind;
use snapshot_octets::{ReadFault, RecordSet, read_set};
use std::alloc::Global;

/// Room for so many sets is taken at once; a longer list grows as it is read.
const AT_ONCE: usize = 10_000;

/// A zone as it is read: its number, its name, and its sets.
#[derive(Drop)]
pub struct FoundZone {
    pub id: u32,
    pub apex: Name,
    pub sets: Vec<RecordSet>,
}

/// The zone that stands at a place of a snapshot, and the place behind it.
pub fn read_zone(
    alloc: Global,
    octets: &[u8],
    at: usize,
) -> Result<(FoundZone, usize), SnapshotFault>
    ensures { GivesOrNone hosted_of result (found_at zone_at octets.now at) }
{
    snapshot_octets::written_reads_back();
    snapshot_octets::sets_are_told();
    match zone_at(alloc, from_place(octets, at)) {
        Ok((zone, rest)) => Ok((zone, place_of(octets, rest))),
        Err(Stop::Bad(_)) => Err(SnapshotFault::Bad),
        Err(Stop::OutOfMemory) => Err(SnapshotFault::OutOfMemory),
    }
}

/// A zone: its number, its name, and its sets.
#[tactic(auto, unfolding(snapshot_octets::specs::Reading::zone_at, crate::specs::Parts::sets_at))]
fn zone_at(alloc: Global, bytes: &[u8]) -> Result<(FoundZone, &[u8]), Stop>
    ensures { GivesOrStops (λ x. hosted_of (x.0, x.1.now)) result (zone_at bytes.now) }
{
    let (id, rest) = four_at(bytes)?;
    let (apex, rest) = match name_at(rest) {
        Ok(read) => read,
        Err(Fault(left)) => return Err(Stop::Bad(left)),
    };
    let (sets, rest) = match sets_at(alloc, rest) {
        Ok(read) => read,
        Err(stop) => return Err(stop),
    };
    Ok((FoundZone { id, apex, sets }, rest))
}

/// The sets of a zone, behind how many there are.
#[tactic(auto, unfolding(crate::specs::Parts::sets_at))]
fn sets_at(alloc: Global, bytes: &[u8]) -> Result<(Vec<RecordSet>, &[u8]), Stop>
    ensures { GivesOrStops (λ x. (x.0.items, x.1.now)) result (sets_at bytes.now) }
{
    let (count, rest) = four_at(bytes)?;
    sets_in(alloc, count, rest)
}

/// So many sets, and what stands behind them.
///
/// Each is put where it is kept as it was read: a set has some 800 octets, and is moved as seldom as
/// may be.
fn sets_in(alloc: Global, count: u32, bytes: &[u8]) -> Result<(Vec<RecordSet>, &[u8]), Stop>
    ensures { GivesOrStops (λ x. (x.0.items, x.1.now)) result (so_many set_at count bytes.now) }
{
    let room = (count as usize).min(bytes.len()).min(AT_ONCE);
    let Ok(mut sets) = Vec::with_capacity(alloc, room) else {
        return Err(Stop::OutOfMemory);
    };
    let mut rest = bytes;
    for _ in 0..count {
        match add_set(alloc, rest, &mut sets) {
            Ok(len) => rest = behind(rest, len),
            Err(stop) => return Err(stop),
        }
    }
    Ok((sets, rest))
}

/// The set at the front comes behind others. How many octets it has is told.
#[inline(always)]
#[tactic(auto, unfolding(command_codec::specs::Reading::set_at))]
fn add_set(alloc: Global, bytes: &[u8], sets: &mut Vec<RecordSet>) -> Result<usize, Stop>
    ensures { AddsSet sets.old.items sets.new.items bytes.now result }
{
    match read_set(alloc, bytes) {
        Ok(read) => {
            sets.push(read.0)?;
            Ok(read.1)
        }
        Err(ReadFault::Bad(place)) => Err(Stop::Bad(bytes.len() - place)),
        Err(ReadFault::OutOfMemory) => Err(Stop::OutOfMemory),
    }
}
