//! What one set of a group says by the policy of the first one, read where it stands.
//!
//! It is read in the 32 octets of the set among which the policy begins and the 32 behind those: its
//! front, and what stands behind the identifier. The policy is copied only where that doesn't tell
//! it.

ghost use Rattle.std.specs.Prelude.{◌≡◌, ◌<◌, slice_get, IsTrue, Some};
ghost use Rattle.std.specs.Option.{option_copied, unwrap_or};
ghost use Rattle.answer_model.specs.Policies.{place_of, region_of, role_of, weight_of};
ghost use Rattle.geo_latency.specs.Regions.{slowness};
ghost use Rattle.zone_table.specs.Looking.{IsGroupNow};
ghost use Rattle.zone_table.specs.RecordSetRecord.{RecordSet};
ghost use Rattle.policy_select.specs.Groups.{sets_in};
ghost use Rattle.policy_select.specs.Members.{AreMembers};
ghost use Rattle.policy_select.specs.Nearby.{HasPlace, IsForOtherCountry, TellsNear};
ghost use Rattle.routing.specs.declared.policies.Place.{Place};
ghost use Rattle.routing.specs.declared.policies.Place.TheVariants.{Country};

use crate::group::{MOST, policy_copied, policy_pieces};
use crate::parts::{
    behind_ident, has_text, ident_size, is_country_in, is_elsewhere_in, is_other_behind,
    octet_behind, place_in, place_whole, region_in, region_whole, role_behind, role_in, text_front,
    weight_in,
};
use crate::soonest::slowness_under;
use answer_model::Latencies;
use routing::{Place, Region, Role};
use zone_table::{Group, Zones};

/// The weight of the set at a place of a group, and that of the first one where the set has none.
#[inline(always)]
pub(crate) fn weight_of_member(
    zones: &Zones,
    group: &Group,
    slots: &[u32],
    at: usize,
    i: usize,
    first: u8,
) -> u8
    requires group { IsGroupNow zones.now.zones group.now }
    requires slots { AreMembers zones.now.zones group.now slots.now at }
    requires within { i < group.now.length }
    ensures { (set : RecordSet) × (slice_get (sets_in zones.now.zones group.now) i ≡ Some set)
        × (result ≡ unwrap_or (weight_of set.routing) first) }
{
    let (front, next) = policy_pieces(zones, *group, slots, at, i);
    let Some(size) = ident_size(front, 1) else {
        return weight_copied(zones, group, slots, at, i, first);
    };
    match octet_behind(behind_ident(front, next, size), 0) {
        Some(weight) => weight,
        None => weight_copied(zones, group, slots, at, i, first),
    }
}

/// The same, from a copy of the policy.
// Apart, so that most sets pass by what they don't need.
#[inline(never)]
fn weight_copied(zones: &Zones, group: &Group, slots: &[u32], at: usize, i: usize, first: u8) -> u8
    requires group { IsGroupNow zones.now.zones group.now }
    requires slots { AreMembers zones.now.zones group.now slots.now at }
    requires within { i < group.now.length }
    ensures { (set : RecordSet) × (slice_get (sets_in zones.now.zones group.now) i ≡ Some set)
        × (result ≡ unwrap_or (weight_of set.routing) first) }
{
    weight_in(
        policy_copied(zones, *group, slots, at, i, &mut [0; MOST]),
        first,
    )
}

/// The role of the set at a place of a group, and that of the first one where the set has none.
#[inline(always)]
pub(crate) fn role_of_member(
    zones: &Zones,
    group: &Group,
    slots: &[u32],
    at: usize,
    i: usize,
    first: Role,
) -> Role
    requires group { IsGroupNow zones.now.zones group.now }
    requires slots { AreMembers zones.now.zones group.now slots.now at }
    requires within { i < group.now.length }
    ensures { (set : RecordSet) × (slice_get (sets_in zones.now.zones group.now) i ≡ Some set)
        × (result ≡ unwrap_or (role_of set.routing) first) }
{
    let (front, next) = policy_pieces(zones, *group, slots, at, i);
    let Some(size) = ident_size(front, 2) else {
        return role_copied(zones, group, slots, at, i, first);
    };
    match role_behind(behind_ident(front, next, size), 0) {
        Some(role) => role,
        None => role_copied(zones, group, slots, at, i, first),
    }
}

/// The same, from a copy of the policy.
// Apart, so that most sets pass by what they don't need.
#[inline(never)]
fn role_copied(
    zones: &Zones,
    group: &Group,
    slots: &[u32],
    at: usize,
    i: usize,
    first: Role,
) -> Role
    requires group { IsGroupNow zones.now.zones group.now }
    requires slots { AreMembers zones.now.zones group.now slots.now at }
    requires within { i < group.now.length }
    ensures { (set : RecordSet) × (slice_get (sets_in zones.now.zones group.now) i ≡ Some set)
        × (result ≡ unwrap_or (role_of set.routing) first) }
{
    role_in(
        policy_copied(zones, *group, slots, at, i, &mut [0; MOST]),
        first,
    )
}

/// Whether the set at a place of a group is for a country other than the one of this number, as most
/// sets of a large group are. Where its identifier is long this isn't told here.
#[inline(always)]
pub(crate) fn is_passed_by(
    zones: &Zones,
    group: &Group,
    slots: &[u32],
    at: usize,
    i: usize,
    country: u32,
) -> bool
    requires group { IsGroupNow zones.now.zones group.now }
    requires slots { AreMembers zones.now.zones group.now slots.now at }
    requires within { i < group.now.length }
    ensures { IsTrue result → (first : Place)
        → IsForOtherCountry country first (sets_in zones.now.zones group.now) i }
{
    let (front, next) = policy_pieces(zones, *group, slots, at, i);
    let Some(size) = ident_size(front, 3) else {
        return false;
    };
    is_other_behind(front, next, size, country)
}

/// Whether the set at a place of a group is for the country of this code. Where its identifier is long
/// this isn't told here.
#[inline(always)]
pub(crate) fn is_for_country(
    zones: &Zones,
    group: &Group,
    slots: &[u32],
    at: usize,
    i: usize,
    code: &[u8; 2],
) -> bool
    requires group { IsGroupNow zones.now.zones group.now }
    requires slots { AreMembers zones.now.zones group.now slots.now at }
    requires within { i < group.now.length }
    ensures { IsTrue result → (first : Place)
        → HasPlace (Country code.now) first (sets_in zones.now.zones group.now) i }
{
    let (front, next) = policy_pieces(zones, *group, slots, at, i);
    let Some(size) = ident_size(front, 3) else {
        return false;
    };
    is_country_in(behind_ident(front, next, size), code)
}

/// The place of the set at a place of a group, and that of the first one where the set has none.
/// None where it is a country other than the one of this number, and a copy of the policy told it.
// Apart, since most sets are passed by.
#[inline(never)]
pub(crate) fn near_place_of_member(
    zones: &Zones,
    group: &Group,
    slots: &[u32],
    at: usize,
    i: usize,
    first: &Place,
    country: u32,
) -> Option<Place>
    requires group { IsGroupNow zones.now.zones group.now }
    requires slots { AreMembers zones.now.zones group.now slots.now at }
    requires within { i < group.now.length }
    ensures { (set : RecordSet) × (slice_get (sets_in zones.now.zones group.now) i ≡ Some set)
        × TellsNear country (unwrap_or (place_of set.routing) first.now) result }
{
    let (front, next) = policy_pieces(zones, *group, slots, at, i);
    let Some(size) = ident_size(front, 3) else {
        return near_place_copied(zones, group, slots, at, i, first, country);
    };
    match place_whole(behind_ident(front, next, size)) {
        Some(place) => Some(place),
        None => near_place_copied(zones, group, slots, at, i, first, country),
    }
}

/// The same, from a copy of the policy.
// Apart, so that most sets pass by what they don't need.
#[inline(never)]
fn near_place_copied(
    zones: &Zones,
    group: &Group,
    slots: &[u32],
    at: usize,
    i: usize,
    first: &Place,
    country: u32,
) -> Option<Place>
    requires group { IsGroupNow zones.now.zones group.now }
    requires slots { AreMembers zones.now.zones group.now slots.now at }
    requires within { i < group.now.length }
    ensures { (set : RecordSet) × (slice_get (sets_in zones.now.zones group.now) i ≡ Some set)
        × TellsNear country (unwrap_or (place_of set.routing) first.now) result }
{
    let mut buffer = [0; MOST];
    let octets = policy_copied(zones, *group, slots, at, i, &mut buffer);
    if is_elsewhere_in(octets, country) {
        return None;
    }
    Some(place_in(octets, first))
}

/// The region of the set at a place of a group, and that of the first one where the set has none.
#[inline(always)]
pub(crate) fn region_of_member(
    zones: &Zones,
    group: &Group,
    slots: &[u32],
    at: usize,
    i: usize,
    first: &Region,
) -> Region
    requires group { IsGroupNow zones.now.zones group.now }
    requires slots { AreMembers zones.now.zones group.now slots.now at }
    requires within { i < group.now.length }
    ensures { (set : RecordSet) × (slice_get (sets_in zones.now.zones group.now) i ≡ Some set)
        × (result ≡ unwrap_or (region_of set.routing) first.now) }
{
    let (front, next) = policy_pieces(zones, *group, slots, at, i);
    let Some(size) = ident_size(front, 4) else {
        return region_copied(zones, group, slots, at, i, first);
    };
    match region_whole(behind_ident(front, next, size)) {
        Some(region) => region,
        None => region_copied(zones, group, slots, at, i, first),
    }
}

/// The same, from a copy of the policy.
// Apart, so that most sets pass by what they don't need.
#[inline(never)]
fn region_copied(
    zones: &Zones,
    group: &Group,
    slots: &[u32],
    at: usize,
    i: usize,
    first: &Region,
) -> Region
    requires group { IsGroupNow zones.now.zones group.now }
    requires slots { AreMembers zones.now.zones group.now slots.now at }
    requires within { i < group.now.length }
    ensures { (set : RecordSet) × (slice_get (sets_in zones.now.zones group.now) i ≡ Some set)
        × (result ≡ unwrap_or (region_of set.routing) first.now) }
{
    region_in(
        policy_copied(zones, *group, slots, at, i, &mut [0; MOST]),
        first,
    )
}

/// How slow the region of the set at a place of a group is for a client, that of the first one where
/// the set has none.
#[inline(always)]
pub(crate) fn slowness_of_member(
    zones: &Zones,
    group: &Group,
    slots: &[u32],
    at: usize,
    i: usize,
    first: &Region,
    client: Option<&Latencies>,
) -> u64
    requires group { IsGroupNow zones.now.zones group.now }
    requires slots { AreMembers zones.now.zones group.now slots.now at }
    requires within { i < group.now.length }
    ensures { (set : RecordSet) × (slice_get (sets_in zones.now.zones group.now) i ≡ Some set)
        × (result ≡ slowness (option_copied client.entry)
        (unwrap_or (region_of set.routing) first.now)) }
{
    let (front, next) = policy_pieces(zones, *group, slots, at, i);
    let Some(size) = ident_size(front, 4) else {
        return slowness_copied(zones, group, slots, at, i, first, client);
    };
    let piece = behind_ident(front, next, size);
    if !has_text(piece) {
        return slowness_copied(zones, group, slots, at, i, first, client);
    }
    slowness_under(client, text_front(piece))
}

/// The same, from a copy of the policy.
// Apart, so that most sets pass by what they don't need.
#[inline(never)]
fn slowness_copied(
    zones: &Zones,
    group: &Group,
    slots: &[u32],
    at: usize,
    i: usize,
    first: &Region,
    client: Option<&Latencies>,
) -> u64
    requires group { IsGroupNow zones.now.zones group.now }
    requires slots { AreMembers zones.now.zones group.now slots.now at }
    requires within { i < group.now.length }
    ensures { (set : RecordSet) × (slice_get (sets_in zones.now.zones group.now) i ≡ Some set)
        × (result ≡ slowness (option_copied client.entry)
        (unwrap_or (region_of set.routing) first.now)) }
{
    let region = region_copied(zones, group, slots, at, i, first);
    slowness_under(client, region.bytes())
}
