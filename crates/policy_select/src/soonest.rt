//! The set of a latency group of which the region is less slow than those of all others: where there
//! is one, no region's name is compared with another.

ghost use Rattle.std.specs.Prelude.{◌≡◌, ◌<◌, ◌||◌, IfSome, IsTrue, length};
ghost use Rattle.std.proofs.Math.ListN.{get_or};
ghost use Rattle.std.specs.Option.{option_copied};
ghost use Rattle.geo_latency.specs.Regions.{slowness};
ghost use Rattle.policy_select.specs.Soonest.{AreSlower, IsSlower, IsSoonest};

use answer_model::Latencies;
use considered_sets::some_healthy;

/// What stands for a latency that no row tells. It is above each that one tells.
const UNTOLD: u64 = 1 << 32;

/// How slow the region of a name is for a client.
#[inline(always)]
pub(crate) fn slowness_under(client: Option<&Latencies>, name: &[u8]) -> u64
    ensures { result ≡ slowness (option_copied client.entry) name.now }
{
    let Some(latencies) = client else {
        return UNTOLD;
    };
    match latencies.latency_of_bytes(name) {
        Some(latency) => u64::from(latency),
        None => UNTOLD,
    }
}

/// The place of the considered set of which the region is less slow than those of all others, where
/// there is one.
pub(crate) fn soonest(slow: &[u64], healthy: &[bool]) -> Option<usize>
    requires { length slow.now ≡ length healthy.now }
    ensures { IfSome result (λ place. IsSoonest slow.now healthy.now place) }
{
    let all = !some_healthy(healthy);
    let place = least_at(slow, healthy, all);
    if place >= slow.len() {
        return None;
    }
    if !is_considered(healthy[place], all) {
        return None;
    }
    if !are_slower(slow, healthy, all, place) {
        return None;
    }
    Some(place)
}

/// The place of a considered set that is as little slow as any: a guess, which is looked at again.
#[inline(always)]
fn least_at(slow: &[u64], healthy: &[bool], all: bool) -> usize
    requires { length slow.now ≡ length healthy.now }
{
    let mut least = u64::MAX;
    let mut place = 0;
    for i in 0..slow.len() {
        if slow[i] < least && is_considered(healthy[i], all) {
            least = slow[i];
            place = i;
        }
    }
    place
}

/// Whether all considered sets but the one at a place are slower than that.
#[inline(always)]
fn are_slower(slow: &[u64], healthy: &[bool], all: bool, place: usize) -> bool
    requires one_length { length slow.now ≡ length healthy.now }
    requires within { place < length slow.now }
    ensures { IsTrue result → AreSlower slow.now healthy.now all place (length slow.now) }
{
    for i in 0..slow.len() {
        if !is_slower(slow, healthy, all, place, i) {
            return false;
        }
    }
    true
}

/// Whether a set is slower than the one at a place, or is that one, or isn't considered.
#[inline(always)]
fn is_slower(slow: &[u64], healthy: &[bool], all: bool, place: usize, other: usize) -> bool
    requires one_length { length slow.now ≡ length healthy.now }
    requires within { place < length slow.now }
    requires other { other < length slow.now }
    ensures { IsTrue result → IsSlower slow.now healthy.now all place other }
{
    if slow_at(slow, place) < slow_at(slow, other) {
        return true;
    }
    if other == place {
        return true;
    }
    !is_considered(healthy[other], all)
}

/// How slow the region of a set is.
#[inline(always)]
fn slow_at(slow: &[u64], set: usize) -> u64
    requires { set < length slow.now }
    ensures { result ≡ get_or slow.now set 0 }
{
    slow[set]
}

/// Whether a set is considered: it is healthy, or all are considered.
fn is_considered(healthy: bool, all: bool) -> bool
    ensures { result ≡ (healthy || all) }
{
    healthy || all
}
