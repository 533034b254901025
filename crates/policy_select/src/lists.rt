//! What the sets of a group say, set by set, as lists for the choices. What the first set says is
//! known where it tells the policy.

ghost use Rattle.std.specs.Prelude.{◌≡◌, ◌<◌, ◌≤◌, IfSome, IsSome, IsTrue, Some, length, take};
ghost use Rattle.std.specs.Prelude.{◌≢◌, slice_get, true};
ghost use Rattle.answer_model.specs.Choice.{each};
ghost use Rattle.answer_model.specs.Policies.{location_of, place_of, region_of, role_of, weight_of};
ghost use Rattle.geo_latency.specs.Places.{chosen};
ghost use Rattle.zone_table.specs.Looking.{IsGroupNow, slots_in};
ghost use Rattle.std.specs.Option.{option_copied, unwrap_or};
ghost use Rattle.routing.specs.declared.policies.Place.{Place};
ghost use Rattle.policy_select.specs.Members.{AreMembers};
ghost use Rattle.policy_select.specs.Nearby.{AreForOthers, IsEnough, OnListed, OnFound, SettlesAt};
ghost use Rattle.policy_select.specs.declared.lists.Walked.TheVariants as walked;
ghost use Rattle.policy_select.specs.Groups.{flags_in, sets_in};
ghost use Rattle.policy_select.specs.Rules.{FirstSays};
ghost use Rattle.policy_select.specs.Soonest.{slow_each};

use crate::group::{is_member_healthy, routing_at};
use crate::near::{country_of, settles, settling_code};
use crate::parts::location_or;
use crate::said::{
    is_for_country, is_passed_by, near_place_of_member, region_of_member, role_of_member,
    slowness_of_member, weight_of_member,
};
use crate::view::HealthView;
use answer_model::{Latencies, Location};
use routing::{Place, Region, Role};
use zone_table::{Group, Ident, Scratch, Zones};

/// Notes which sets of a group are healthy.
pub(crate) fn note_healthy<V: HealthView>(
    zones: &Zones,
    group: Group,
    slots: &[u32],
    view: &V,
    healthy: &mut [bool],
)
    requires group { IsGroupNow zones.now.zones group }
    requires slots { slots.now ≡ slots_in zones.now.zones group }
    requires room { group.length ≤ length healthy.old }
    ensures noted { take group.length healthy.new
        ≡ flags_in zones.now.zones (V.test view.now) group }
    ensures size { length healthy.new ≡ length healthy.old }
{
    for i in 0..group.length {
        healthy[i] = is_member_healthy(zones, group, slots, view, i);
    }
}

/// Notes the weights of a group.
pub(crate) fn note_weights(
    zones: &Zones,
    group: Group,
    slots: &[u32],
    at: usize,
    first: u8,
    weights: &mut [u8],
)
    requires group { IsGroupNow zones.now.zones group }
    requires slots { AreMembers zones.now.zones group slots.now at }
    requires first { FirstSays weight_of first (sets_in zones.now.zones group) }
    requires some { 0 < group.length }
    requires room { group.length ≤ length weights.old }
    ensures noted { take group.length weights.new
        ≡ each weight_of first (sets_in zones.now.zones group) }
    ensures size { length weights.new ≡ length weights.old }
{
    weights[0] = first;
    for i in 1..group.length {
        weights[i] = weight_of_member(zones, &group, slots, at, i, first);
    }
}

/// Notes the roles of a group.
pub(crate) fn note_roles(
    zones: &Zones,
    group: Group,
    slots: &[u32],
    at: usize,
    first: Role,
    roles: &mut [Role],
)
    requires group { IsGroupNow zones.now.zones group }
    requires slots { AreMembers zones.now.zones group slots.now at }
    requires first { FirstSays role_of first (sets_in zones.now.zones group) }
    requires some { 0 < group.length }
    requires room { group.length ≤ length roles.old }
    ensures noted { take group.length roles.new
        ≡ each role_of first (sets_in zones.now.zones group) }
    ensures size { length roles.new ≡ length roles.old }
{
    roles[0] = first;
    for i in 1..group.length {
        roles[i] = role_of_member(zones, &group, slots, at, i, first);
    }
}

/// Where the policies of sets begin here or before, two octets of each stand among the first 32 of its
/// set, as those of most groups do.
const EARLY: usize = 30;

/// The first set of a geolocation group from a place on that may apply to a client of the country of
/// this number, and none where all of them are for other countries. Where the identifier of a set is
/// long, it may be for another country too.
// Where the policies begin is the same for all sets. It is looked at before the walk, which is compiled for
// either case, and not set by set.
#[inline(always)]
fn next_near(
    zones: &Zones,
    group: &Group,
    slots: &[u32],
    at: usize,
    from: usize,
    country: u32,
) -> Option<usize>
    requires group { IsGroupNow zones.now.zones group.now }
    requires slots { AreMembers zones.now.zones group.now slots.now at }
    requires within { from ≤ group.now.length }
    ensures found { IfSome result (λ i. (from ≤ i) × (i < group.now.length)) }
    ensures passed { (first : Place) → AreForOthers country first
        (sets_in zones.now.zones group.now) from (unwrap_or result group.now.length) }
{
    if at <= EARLY {
        return walk_to_near(zones, group, slots, at, from, country);
    }
    walk_to_near(zones, group, slots, at, from, country)
}

/// The same, set by set.
// Nothing is written and nobody asked in this walk, so that where the sets stand is loaded once.
#[inline(always)]
fn walk_to_near(
    zones: &Zones,
    group: &Group,
    slots: &[u32],
    at: usize,
    from: usize,
    country: u32,
) -> Option<usize>
    requires group { IsGroupNow zones.now.zones group.now }
    requires slots { AreMembers zones.now.zones group.now slots.now at }
    requires within { from ≤ group.now.length }
    ensures found { IfSome result (λ i. (from ≤ i) × (i < group.now.length)) }
    ensures passed { (first : Place) → AreForOthers country first
        (sets_in zones.now.zones group.now) from (unwrap_or result group.now.length) }
{
    for i in from..group.length {
        if !is_passed_by(zones, group, slots, at, i, country) {
            return Some(i);
        }
    }
    None
}

/// What a walk over a geolocation group comes to.
#[derive(Clone, Copy)]
pub(crate) enum Walked {
    /// The set at this place is chosen.
    Found(usize),
    /// So many sets are noted, among which the choice is.
    Listed(usize),
    /// More sets may apply than there is room for.
    Full,
}

/// Whether the set at a place of a geolocation group, before which so many are noted, is chosen where
/// those in front of it that aren't noted are for other countries: none is noted, and it is a healthy
/// one for the client's country, of which no subdivision is told. Where its identifier is long this
/// isn't told here.
#[inline(always)]
fn settles_at<V: HealthView>(
    count: usize,
    zones: &Zones,
    group: Group,
    slots: &[u32],
    view: &V,
    at: usize,
    i: usize,
    client: Option<&Location>,
) -> bool
    requires group { IsGroupNow zones.now.zones group }
    requires slots { AreMembers zones.now.zones group slots.now at }
    requires within { i < group.length }
    ensures none { IsTrue result → count ≡ 0 }
    ensures healthy { IsTrue result
        → slice_get (flags_in zones.now.zones (V.test view.now) group) i ≡ Some true }
    ensures settled { IsTrue result → (first : Place)
        → SettlesAt (option_copied client.entry) first (sets_in zones.now.zones group) i }
{
    if count > 0 {
        return false;
    }
    let Some(code) = settling_code(client) else {
        return false;
    };
    if !is_for_country(zones, &group, slots, at, i, &code) {
        return false;
    }
    is_member_healthy(zones, group, slots, view, i)
}

/// Notes of a geolocation group the sets that may apply to the client, which a set for another
/// country doesn't: their places, which of them are healthy, and where they stand in the group; up to
/// one that is chosen whatever stands behind it. Where that is the first that may apply it is the
/// answer, and not noted. Nobody is asked for the health of the others.
pub(crate) fn note_near<V: HealthView>(
    zones: &Zones,
    group: Group,
    slots: &[u32],
    view: &V,
    at: usize,
    first: &Place,
    client: Option<&Location>,
    places: &mut [Place],
    healthy: &mut [bool],
    sets: &mut [usize],
) -> Walked
    requires group { IsGroupNow zones.now.zones group }
    requires slots { AreMembers zones.now.zones group slots.now at }
    requires healthy { length places.old ≤ length healthy.old }
    requires sets { length places.old ≤ length sets.old }
    ensures found { OnFound result (λ set. Some set
        ≡ chosen (each place_of first.now (sets_in zones.now.zones group))
        (flags_in zones.now.zones (V.test view.now) group) (option_copied client.entry)) }
    ensures noted { OnListed result (λ count. IsEnough (option_copied client.entry)
        (each place_of first.now (sets_in zones.now.zones group))
        (flags_in zones.now.zones (V.test view.now) group)
        (take count places.new) (take count healthy.new) (take count sets.new)) }
    ensures count { OnListed result (λ count. count ≤ length places.new) }
    ensures room { group.length ≤ length places.old → result ≢ walked.Full }
    ensures places { length places.new ≡ length places.old }
    ensures healthy { length healthy.new ≡ length healthy.old }
    ensures sets { length sets.new ≡ length sets.old }
{
    let country = country_of(client);
    let mut count = 0;
    let mut from = 0;
    while let Some(i) = next_near(zones, &group, slots, at, from, country) {
        if settles_at(count, zones, group, slots, view, at, i, client) {
            return Walked::Found(i);
        }
        from = i + 1;
        let Some(place) = near_place_of_member(zones, &group, slots, at, i, first, country) else {
            continue;
        };
        if count == places.len() {
            return Walked::Full;
        }
        let is_healthy = is_member_healthy(zones, group, slots, view, i);
        places[count] = place;
        healthy[count] = is_healthy;
        sets[count] = i;
        count += 1;
        if settles(is_healthy, client, &place) {
            return Walked::Listed(count);
        }
    }
    Walked::Listed(count)
}

/// Notes the regions of a group.
pub(crate) fn note_regions(
    zones: &Zones,
    group: Group,
    slots: &[u32],
    at: usize,
    first: &Region,
    regions: &mut [Region],
)
    requires group { IsGroupNow zones.now.zones group }
    requires slots { AreMembers zones.now.zones group slots.now at }
    requires first { FirstSays region_of first.now (sets_in zones.now.zones group) }
    requires some { 0 < group.length }
    requires room { group.length ≤ length regions.old }
    ensures noted { take group.length regions.new
        ≡ each region_of first.now (sets_in zones.now.zones group) }
    ensures size { length regions.new ≡ length regions.old }
{
    regions[0] = *first;
    for i in 1..group.length {
        regions[i] = region_of_member(zones, &group, slots, at, i, first);
    }
}

/// Notes how slow the regions of a group are for a client.
pub(crate) fn note_slowness(
    zones: &Zones,
    group: Group,
    slots: &[u32],
    at: usize,
    first: &Region,
    client: Option<&Latencies>,
    slow: &mut [u64],
)
    requires group { IsGroupNow zones.now.zones group }
    requires slots { AreMembers zones.now.zones group slots.now at }
    requires room { group.length ≤ length slow.old }
    ensures noted { take group.length slow.new
        ≡ slow_each (option_copied client.entry) first.now (sets_in zones.now.zones group) }
    ensures size { length slow.new ≡ length slow.old }
{
    for i in 0..group.length {
        slow[i] = slowness_of_member(zones, &group, slots, at, i, first, client);
    }
}

/// Notes the locations of a group.
pub(crate) fn note_locations(
    zones: &Zones,
    group: Group,
    first: &Ident,
    scratch: &mut Scratch,
    locations: &mut [Ident],
)
    requires group { IsGroupNow zones.now.zones group }
    requires room { group.length ≤ length locations.old }
    ensures noted { take group.length locations.new
        ≡ each location_of first.now (sets_in zones.now.zones group) }
    ensures size { length locations.new ≡ length locations.old }
{
    for i in 0..group.length {
        locations[i] = location_or(&routing_at(zones, group, i, scratch), first);
    }
}
