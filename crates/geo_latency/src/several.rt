//! The latencies of several regions in one text. Memory is taken for them when all are read.

ghost use Rattle.std.specs.Prelude.{◌≡◌, ◌+◌, ◌<◌, ◌≤◌, ◌++◌, ◌∷◌, [], length, take};
ghost use Rattle.std.specs.Prelude.{IfOk, IfSome, IsSome, OnErr};
ghost use Rattle.std.specs.Option.{option_map};
ghost use Rattle.geo_latency.specs.Lines.{has_region, latencies_of};
ghost use Rattle.routing.specs.Texts.{IsRegion};

use crate::latencies::{Latencies, latency_in};
use crate::pieces::first_piece;
use crate::rows::read_region_latency;
use octets::OutOfMemory;
use routing::Region;
use std::alloc::Global;

/// The most regions of a row.
const MAX_REGIONS: usize = 32;

/// The latencies of a text: 1 to 32 regions, each once and with its latency, and a comma between
/// them. Memory is wanted for such a text alone.
pub(crate) fn read_latencies(alloc: Global, text: &[u8]) -> Result<Option<Latencies>, OutOfMemory>
    ensures read { IfOk result (λ read. read ≡ latencies_of text.now) }
    ensures wanted { OnErr result (IsSome (latencies_of text.now)) }
{
    let mut rows = [(some_region(), 0); MAX_REGIONS];
    let Some(count) = fill(&mut rows, text) else {
        return Ok(None);
    };
    let list = copied(alloc, first_rows(&rows, count))?;
    Ok(Some(Latencies::new(list)))
}

/// A region, for places of which nothing is read.
fn some_region() -> Region
    ensures { IsRegion result }
{
    match Region::new(b"a") {
        Some(region) => region,
        None => unreachable!("a name"),
    }
}

/// Fills the first places of a list with the latencies of a text. The answer is how many they are.
fn fill(rows: &mut [(Region, u32)], text: &[u8]) -> Option<usize>
    requires room { 32 ≤ length rows.old }
    ensures told { option_map (λ n. take n rows.new) result ≡ latencies_of text.now }
    ensures within { IfSome result (λ n. n ≤ length rows.new) }
{
    let mut count = 0;
    let mut rest = text;
    loop {
        let (piece, behind) = first_piece(b',', rest);
        let Some(row) = read_region_latency(piece) else {
            return None;
        };
        if count >= MAX_REGIONS {
            return None;
        }
        if has_region(first_rows(rows, count), &row.0) {
            return None;
        }
        put_row(rows, count, row);
        count += 1;
        let Some(next) = behind else {
            return Some(count);
        };
        rest = next;
    }
}

/// So many first rows.
fn first_rows(rows: &[(Region, u32)], count: usize) -> &[(Region, u32)]
    requires { count ≤ length rows.now }
    ensures { result.now ≡ take count rows.now }
{
    &rows[..count]
}

/// Puts a row behind the first ones.
fn put_row(rows: &mut [(Region, u32)], at: usize, row: (Region, u32))
    requires { at < length rows.old }
    ensures rows { take (at + 1) rows.new ≡ take at rows.old ++ row ∷ [] }
    ensures long { length rows.new ≡ length rows.old }
{
    rows[at] = row;
}

/// A copy of rows.
fn copied(alloc: Global, rows: &[(Region, u32)]) -> Result<Vec<(Region, u32)>, OutOfMemory>
    ensures { IfOk result (λ list. list.items ≡ rows.now) }
{
    let mut list = Vec::with_capacity(alloc, rows.len())?;
    for row in rows {
        list.push(*row)?;
    }
    Ok(list)
}

/// Whether a latency of this region is among them.
fn has_region(rows: &[(Region, u32)], region: &Region) -> bool
    ensures { result ≡ has_region rows.now region.now }
{
    latency_in(rows, region).is_some()
}
