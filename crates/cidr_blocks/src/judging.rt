//! Whether what is read is a collection, all of its rules together.

ghost use Rattle.std.specs.Prelude.{◌≡◌, ◌≤◌, ◌<◌, ◌++◌, ◌↔◌, length, false, true};
ghost use Rattle.std.specs.Prelude.{IfNone, IfOk, IfSome, IsTrue};
ghost use Rattle.std.specs.List.{AllByRecursion};
ghost use Rattle.std.specs.List.Sorted.{IsStrictlySortedBy};
ghost use Rattle.ip_table.specs.Rows.{HasRow};
ghost use Rattle.cidr_blocks.specs.Judged.{Adds, AddsAll};
ghost use Rattle.cidr_blocks.specs.Places.{IsBlock, IsCidrLocation, IsCollection, StandOnce};
ghost use Rattle.cidr_blocks.specs.Places.{block_cmp, name_cmp, names_of, rows_at, rows_of};

use crate::ident::Ident;
use crate::order::{is_block, name_order, order_of};
use crate::places::{CidrLocation, Collection};
use ip_table::{InsertFault, IpPrefix, IpTable};
use octets::OutOfMemory;
use std::alloc::Global;
use std::cmp::Ordering;

/// The most blocks of a collection.
const MAX_BLOCKS: usize = 1000;

/// Whether this is a collection: names of their lengths, which rise; each location with a block; its
/// blocks of their lengths, which rise; no block twice, and at most 1,000 of them.
pub fn is_collection(alloc: Global, collection: &Collection) -> Result<bool, OutOfMemory>
    ensures { IfOk result (λ is. IsTrue is ↔ IsCollection collection.now) }
{
    let locations = collection.locations.as_slice();
    if !collection.name.is_collection_name() {
        return Ok(false);
    }
    if !are_locations(locations) {
        return Ok(false);
    }
    if !names_rise(locations) {
        return Ok(false);
    }
    if count_of(locations).is_none() {
        return Ok(false);
    }
    stand_once(alloc, locations)
}

/// Whether each is a location.
fn are_locations(locations: &[CidrLocation]) -> bool
    ensures { IsTrue result ↔ AllByRecursion IsCidrLocation locations.now }
{
    for location in locations {
        if !is_location(location) {
            return false;
        }
    }
    true
}

/// Whether this is a location.
fn is_location(location: &CidrLocation) -> bool
    ensures { IsTrue result ↔ IsCidrLocation location.now }
{
    let blocks = location.blocks.as_slice();
    if !location.name.is_location_name() {
        return false;
    }
    if blocks.is_empty() {
        return false;
    }
    if !are_blocks(blocks) {
        return false;
    }
    blocks_rise(blocks)
}

/// Whether each has the length of a block.
fn are_blocks(blocks: &[IpPrefix]) -> bool
    ensures { IsTrue result ↔ AllByRecursion IsBlock blocks.now }
{
    for block in blocks {
        if !fits(*block) {
            return false;
        }
    }
    true
}

/// Whether a prefix has the length of a block.
fn fits(prefix: IpPrefix) -> bool
    ensures { IsTrue result ↔ IsBlock prefix }
{
    prefix.address();
    is_block(prefix)
}

/// Whether each block is below the ones behind it.
fn blocks_rise(blocks: &[IpPrefix]) -> bool
    ensures { IsTrue result ↔ IsStrictlySortedBy block_cmp blocks.now }
{
    for i in 1..blocks.len() {
        if order_of(blocks[i - 1], blocks[i]) != Ordering::Less {
            return false;
        }
    }
    true
}

/// Whether each name is below the ones behind it.
fn names_rise(locations: &[CidrLocation]) -> bool
    ensures { IsTrue result ↔ IsStrictlySortedBy name_cmp (names_of locations.now) }
{
    for i in 1..locations.len() {
        if name_order(&locations[i - 1].name, &locations[i].name) != Ordering::Less {
            return false;
        }
    }
    true
}

/// How many blocks there are, where these are at most 1,000.
fn count_of(locations: &[CidrLocation]) -> Option<usize>
    ensures few { IfSome result (λ n. (n ≡ length (rows_of locations.now)) × (n ≤ 1000)) }
    ensures many { IfNone result (1000 < length (rows_of locations.now)) }
{
    let mut count = 0;
    for location in locations {
        count += location.blocks.as_slice().len();
        if count > MAX_BLOCKS {
            return None;
        }
    }
    Some(count)
}

/// Whether no block stands twice.
fn stand_once(alloc: Global, locations: &[CidrLocation]) -> Result<bool, OutOfMemory>
    requires few { length (rows_of locations.now) ≤ 1000 }
    ensures { IfOk result (λ once. IsTrue once ↔ StandOnce (rows_of locations.now)) }
{
    let mut table = IpTable::new(alloc);
    for location in locations {
        if !add_all(&mut table, location)? {
            return Ok(false);
        }
    }
    Ok(true)
}

/// Adds the blocks of a location. The answer is whether they all are new.
fn add_all(table: &mut IpTable<Ident>, location: &CidrLocation) -> Result<bool, OutOfMemory>
    requires once { StandOnce table.old }
    requires few { length (table.old ++ rows_at location.now.name location.now.blocks) ≤ 1000 }
    ensures { IfOk result (AddsAll table.old
        (rows_at location.now.name location.now.blocks) table.new) }
{
    for block in location.blocks.as_slice() {
        if !add(table, *block, location.name)? {
            return Ok(false);
        }
    }
    Ok(true)
}

/// Adds a block. The answer is whether it is new.
fn add(table: &mut IpTable<Ident>, block: IpPrefix, name: Ident) -> Result<bool, OutOfMemory>
    requires once { StandOnce table.old }
    requires few { length table.old < 100000 }
    ensures { IfOk result (Adds table.old block name table.new) }
{
    match table.insert(block, name) {
        Ok(()) => Ok(true),
        Err(InsertFault::Duplicate(_)) => Ok(false),
        Err(InsertFault::OutOfMemory(_)) => Err(OutOfMemory),
        Err(InsertFault::Full(_)) => unreachable!(),
    }
}
