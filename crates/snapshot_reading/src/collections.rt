//! Collections at the front of octets, each behind its number.

ghost use Rattle.octet_reading.specs.Reading.{GivesOrStops};
ghost use Rattle.snapshot_octets.specs.Reading.{collection_at, numbered_collection_at, location_at};
ghost use Rattle.snapshot_reading.specs.Parts.{collections_at};

use block_reading::OneBlock;
use cidr_blocks::{Blocks, CidrLocation, Collection, Locations};
use octet_reading::{Fault, Field, Stop, four_at, list_at};
use std::alloc::Global;

/// The first version that tells collections.
pub(crate) const TELLS_COLLECTIONS: u8 = 3;

/// The collections behind their number, where the version tells them.
#[tactic(auto, unfolding(crate::specs::Parts::collections_at))]
pub(crate) fn collections_at(
    alloc: Global,
    version: u8,
    bytes: &[u8],
) -> Result<(Vec<(u32, Collection)>, &[u8]), Stop>
    ensures { GivesOrStops (λ x. (x.0.items, x.1.now)) result (collections_at version bytes.now) }
{
    if version < TELLS_COLLECTIONS {
        return Ok((Vec::new(alloc), bytes));
    }
    list_at(alloc, &HeldCollection, bytes)
}

/// A collection behind its number, as an item of a list.
struct HeldCollection;

impl Field for HeldCollection {
    type Value = (u32, Collection);

    ghost use Rattle.snapshot_octets.specs.Reading.{numbered_collection_at};

    ghost reading = { λ _. numbered_collection_at };

    fn read<'a>(
        &self,
        alloc: Global,
        bytes: &'a [u8],
    ) -> Result<((u32, Collection), &'a [u8]), Stop> {
        held_collection_at(alloc, bytes)
    }
}

/// A collection behind its number.
#[tactic(auto, unfolding(snapshot_octets::specs::Reading::numbered_collection_at))]
fn held_collection_at(alloc: Global, bytes: &[u8]) -> Result<((u32, Collection), &[u8]), Stop>
    ensures { GivesOrStops (λ x. (x.0, x.1.now)) result (numbered_collection_at bytes.now) }
{
    let (id, rest) = four_at(bytes)?;
    match collection_at(alloc, rest) {
        Ok((collection, rest)) => Ok(((id, collection), rest)),
        Err(stop) => Err(stop),
    }
}

/// A collection: its name, and its locations.
#[tactic(auto, unfolding(snapshot_octets::specs::Reading::collection_at))]
fn collection_at(alloc: Global, bytes: &[u8]) -> Result<(Collection, &[u8]), Stop>
    ensures { GivesOrStops (λ x. (x.0, x.1.now)) result (collection_at bytes.now) }
{
    let (name, rest) = match block_reading::name_at(bytes) {
        Ok(read) => read,
        Err(Fault(left)) => return Err(Stop::Bad(left)),
    };
    let (locations, rest) = list_at(alloc, &OneLocation, rest)?;
    let collection = Collection {
        name,
        locations: Locations::from_vec(locations),
    };
    Ok((collection, rest))
}

/// A location, as an item of a list.
struct OneLocation;

impl Field for OneLocation {
    type Value = CidrLocation;

    ghost use Rattle.snapshot_octets.specs.Reading.{location_at};

    ghost reading = { λ _. location_at };

    fn read<'a>(&self, alloc: Global, bytes: &'a [u8]) -> Result<(CidrLocation, &'a [u8]), Stop> {
        location_at(alloc, bytes)
    }
}

/// A location: its name, and its blocks.
#[tactic(auto, unfolding(snapshot_octets::specs::Reading::location_at))]
fn location_at(alloc: Global, bytes: &[u8]) -> Result<(CidrLocation, &[u8]), Stop>
    ensures { GivesOrStops (λ x. (x.0, x.1.now)) result (location_at bytes.now) }
{
    let (name, rest) = match block_reading::location_at(bytes) {
        Ok(read) => read,
        Err(Fault(left)) => return Err(Stop::Bad(left)),
    };
    let (blocks, rest) = list_at(alloc, &OneBlock, rest)?;
    let location = CidrLocation {
        name,
        blocks: Blocks::from_vec(blocks),
    };
    Ok((location, rest))
}
