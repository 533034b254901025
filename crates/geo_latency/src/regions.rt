//! The considered set whose region has the least latency, kept while the sets are walked.

ghost use Rattle.std.specs.Prelude.{◌≡◌, ◌≤◌, ◌<◌, ◌+◌, ◌||◌, ◌∷◌, [], length};
ghost use Rattle.std.proofs.Math.ListN.{get_or};
ghost use Rattle.geo_latency.specs.First.{IsFirst};
ghost use Rattle.std.specs.Option.{option_copied};
ghost use Rattle.std.specs.Ordering.{is_lt, nat_cmp};
ghost use Rattle.std.specs.Cmp.Lexicographic.{slice_cmp};
ghost use Rattle.geo_latency.specs.Regions.{chosen, slowness};

use crate::latencies::Latencies;
use considered_sets::some_healthy;
use routing::Region;
use std::cmp::Ordering;

/// What stands for a latency that no row tells. It is above each that one tells.
const UNTOLD: u64 = 1 << 32;

/// Chooses a set of a latency group. The answer is its place in the group.
///
/// Of the healthy sets, or of all where none is healthy, it is the one of the least latency; of
/// equal ones the one whose region has the smaller name by bytes. A region that the client's row
/// doesn't tell is slower than any that it tells.
pub fn choose_region(regions: &[Region], healthy: &[bool], client: Option<&Latencies>) -> usize
    requires one_length { length regions.now ≡ length healthy.now }
    requires some { 1 ≤ length healthy.now }
    ensures chosen { result ≡ chosen regions.now healthy.now (option_copied client.entry) }
    ensures within { result < length regions.now }
{
    let all = !some_healthy(healthy);
    let mut first = None;
    for i in 0..regions.len() {
        first = with_set(regions, healthy, client, all, first, i);
    }
    match first {
        Some(first) => first.set,
        None => unreachable!("some set is considered"),
    }
}

/// How slow a region is for the client.
fn slowness(client: Option<&Latencies>, region: &Region) -> u64
    ensures { result ≡ slowness (option_copied client.entry) region.now }
{
    let Some(latencies) = client else {
        return UNTOLD;
    };
    match latencies.latency_of(region) {
        Some(latency) => u64::from(latency),
        None => UNTOLD,
    }
}

/// Whether a region of this slowness comes before another.
fn is_before(slowness: u64, region: &Region, other_slowness: u64, other: &Region) -> bool
    ensures { result ≡ is_lt (slice_cmp nat_cmp
        (slowness ∷ region.now) (other_slowness ∷ other.now)) }
{
    match slowness.cmp(&other_slowness) {
        Ordering::Less => true,
        Ordering::Equal => is_smaller(region.bytes(), other.bytes()),
        Ordering::Greater => false,
    }
}

/// Whether a text is before another by its bytes.
fn is_smaller(text: &[u8], other: &[u8]) -> bool
    ensures { result ≡ is_lt (slice_cmp nat_cmp text.now other.now) }
{
    text.cmp(other).is_lt()
}

/// The region of a set.
fn region_at(regions: &[Region], set: usize) -> &Region
    requires { set < length regions.now }
    ensures { result.now ≡ get_or regions.now set [] }
{
    &regions[set]
}

/// The set of which the region comes first, and how slow that region is.
#[derive(Clone, Copy)]
struct First {
    set: usize,
    slowness: u64,
}

/// The set that comes first when one more set was looked at.
fn with_set(
    regions: &[Region],
    healthy: &[bool],
    client: Option<&Latencies>,
    all: bool,
    first: Option<First>,
    i: usize,
) -> Option<First>
    requires one_length { length regions.now ≡ length healthy.now }
    requires more { i < length regions.now }
    requires first { IsFirst (option_copied client) regions.now healthy.now all i first }
    ensures { IsFirst (option_copied client.entry) regions.now healthy.now all (i + 1) result }
{
    if !is_considered(healthy[i], all) {
        return first;
    }
    let region = region_at(regions, i);
    let slowness = slowness(client, region);
    let Some(known) = first else {
        return Some(First { set: i, slowness });
    };
    let other = region_at(regions, known.set);
    if is_before(slowness, region, known.slowness, other) {
        return Some(First { set: i, slowness });
    }
    first
}

/// Whether a set is considered.
fn is_considered(healthy: bool, all: bool) -> bool
    ensures { result ≡ (healthy || all) }
{
    healthy || all
}
