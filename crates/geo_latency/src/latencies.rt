//! The latencies of a client to regions, as a row of the table of latencies tells.

ghost use Rattle.std.specs.Prelude.{◌≡◌};
ghost use Rattle.geo_latency.specs.Regions.{latency_of};

use crate::same::has_bytes;
use routing::Region;
use std::marker::Model;

/// The latencies of a client to some regions, in milliseconds.
#[derive(Drop)]
pub struct Latencies {
    rows: Vec<(Region, u32)>,
}

impl Model for Latencies {
    ghost use Rattle.std.specs.Prelude.{ℕ, List};

    ghost Value = { List (List ℕ × ℕ) };

    ghost view = { λ l. l.rows.items };
}

impl Latencies {
    /// The latencies of these rows.
    pub(crate) fn new(rows: Vec<(Region, u32)>) -> Latencies
        ensures { result ≡ rows.items }
    {
        Latencies { rows }
    }

    /// The latency of a region, where it is told.
    pub fn latency_of(&self, region: &Region) -> Option<u32>
        ensures { result ≡ latency_of self.now region.now }
    {
        latency_in(&self.rows, region)
    }

    /// The latency of the region of these bytes, where it is told. Bytes that no region has aren't.
    #[inline(always)]
    pub fn latency_of_bytes(&self, bytes: &[u8]) -> Option<u32>
        ensures { result ≡ latency_of self.now bytes.now }
    {
        latency_under(&self.rows, bytes)
    }
}

/// The first latency that is told of a region.
pub(crate) fn latency_in(rows: &[(Region, u32)], region: &Region) -> Option<u32>
    ensures { result ≡ latency_of rows.now region.now }
{
    latency_under(rows, region.bytes())
}

/// The first latency that is told of a region of these bytes.
#[inline(always)]
fn latency_under(rows: &[(Region, u32)], bytes: &[u8]) -> Option<u32>
    ensures { result ≡ latency_of rows.now bytes.now }
{
    for i in 0..rows.len() {
        if has_bytes(&rows[i].0, bytes) {
            return Some(rows[i].1);
        }
    }
    None
}
