//! What stands in front of the zones of a snapshot.

ghost use Rattle.octet_reading.specs.Reading.{Gives, GivesOrStops};
ghost use Rattle.snapshot_octets.specs.Reading.{later_at, version_at};
ghost use Rattle.snapshot_reading.specs.Parts.{begun_at, begun_of, front_at, next_collection_at};
ghost use Rattle.snapshot_reading.specs.Places.{GivesOrNone, found_at};

use crate::checks::checks_at;
use crate::collections::{TELLS_COLLECTIONS, collections_at};
use crate::faults::SnapshotFault;
use crate::places::place_of;
use check_model::Check;
use cidr_blocks::Collection;
use octet_reading::{Fault, Stop, four_at, octet_at, two_at};
use std::alloc::Global;

/// The least next number of a collection that is told.
const LEAST_TOLD: u32 = 2;

/// What stands in front of the zones, and how many of these follow.
#[derive(Drop)]
pub struct Front {
    /// The numbers that the next zone, check and collection get.
    pub next_zone: u32,
    pub next_check: u32,
    pub next_collection: u32,
    /// The checks and the collections, each behind its number.
    pub checks: Vec<(u32, Check)>,
    pub collections: Vec<(u32, Collection)>,
    pub zones: u16,
}

/// What stands in front of the zones of a snapshot in any version, and the place behind it.
pub fn read_front(alloc: Global, octets: &[u8]) -> Result<(Front, usize), SnapshotFault>
    ensures { GivesOrNone begun_of result (found_at front_at octets.now 0) }
{
    match front_at(alloc, octets) {
        Ok((front, rest)) => Ok((front, place_of(octets, rest))),
        Err(Stop::Bad(_)) => Err(SnapshotFault::Bad),
        Err(Stop::OutOfMemory) => Err(SnapshotFault::OutOfMemory),
    }
}

/// The version, and all that stands behind it in front of the zones.
#[tactic(auto, unfolding(crate::specs::Parts::front_at))]
fn front_at(alloc: Global, bytes: &[u8]) -> Result<(Front, &[u8]), Stop>
    ensures { GivesOrStops (λ x. begun_of (x.0, x.1.now)) result (front_at bytes.now) }
{
    let (version, rest) = version_at(bytes)?;
    begun_at(alloc, version, rest)
}

/// The version.
#[tactic(auto, unfolding(snapshot_octets::specs::Reading::version_at))]
fn version_at(bytes: &[u8]) -> Result<(u8, &[u8]), Fault>
    ensures { Gives (λ x. (x.0, x.1.now)) result (version_at bytes.now) }
{
    let (version, rest) = octet_at(bytes)?;
    match version {
        1 | 2 | 3 => Ok((version, rest)),
        _ => Err(Fault(bytes.len())),
    }
}

/// The next numbers, the checks and the collections, and how many zones follow.
#[tactic(auto, unfolding(crate::specs::Parts::begun_at))]
fn begun_at(alloc: Global, version: u8, bytes: &[u8]) -> Result<(Front, &[u8]), Stop>
    ensures { GivesOrStops (λ x. begun_of (x.0, x.1.now)) result (begun_at version bytes.now) }
{
    let (next_zone, rest) = four_at(bytes)?;
    let (next_check, rest) = four_at(rest)?;
    let (next_collection, rest) = next_collection_at(version, rest)?;
    let (checks, rest) = match checks_at(alloc, version, rest) {
        Ok(read) => read,
        Err(stop) => return Err(stop),
    };
    let (collections, rest) = match collections_at(alloc, version, rest) {
        Ok(read) => read,
        Err(stop) => return Err(stop),
    };
    let (zones, rest) = two_at(rest)?;
    let front = Front {
        next_zone,
        next_check,
        next_collection,
        checks,
        collections,
        zones,
    };
    Ok((front, rest))
}

/// The next number of a collection, which is 1 where the version doesn't tell it.
#[tactic(auto, unfolding(crate::specs::Parts::next_collection_at))]
fn next_collection_at(version: u8, bytes: &[u8]) -> Result<(u32, &[u8]), Fault>
    ensures { Gives (λ x. (x.0, x.1.now)) result (next_collection_at version bytes.now) }
{
    if version < TELLS_COLLECTIONS {
        return Ok((1, bytes));
    }
    later_at(bytes)
}

/// The next number of a collection where there ever was one.
#[tactic(auto, unfolding(snapshot_octets::specs::Reading::later_at))]
fn later_at(bytes: &[u8]) -> Result<(u32, &[u8]), Fault>
    ensures { Gives (λ x. (x.0, x.1.now)) result (later_at bytes.now) }
{
    let (next, rest) = four_at(bytes)?;
    if next < LEAST_TOLD {
        return Err(Fault(bytes.len()));
    }
    Ok((next, rest))
}
