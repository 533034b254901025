//! The policy by which is chosen from a group: that of its first set.
//!
//! It is told where it stands among the octets of the set, and where two cells of these have all of it,
//! its identifier isn't copied, which is most of a policy. What is long is read only by the choice that
//! wants it: a region, and a policy of address blocks, which is copied whole always.

ghost use Rattle.std.specs.Prelude.{◌≡◌, ◌<◌, ◌∷◌, [], ◌++◌, ℕ, IfSome, IsTrue, List, Some, slice_get, take};
ghost use Rattle.answer_model.specs.Policies.{region_of};
ghost use Rattle.routing.specs.Texts.{IsRegion};
ghost use Rattle.routing.specs.declared.policies.Routing.{Routing};
ghost use Rattle.routing.specs.declared.policies.Routing.TheVariants as policy;
ghost use Rattle.zone_table.specs.Holding.{IsHolding};
ghost use Rattle.zone_table.specs.Looking.{IsGroupNow};
ghost use Rattle.zone_table.specs.Octets.{IsSpelledRouting, routing_octets, text_octets};
ghost use Rattle.zone_table.specs.RecordSetRecord.{RecordSet};
ghost use Rattle.zone_table.specs.SetsOfSetReading.{IsRouting};
ghost use Rattle.policy_select.specs.Groups.{sets_in};
ghost use Rattle.policy_select.specs.Members.{AreMembers, IsFrontOfPolicy, PoliciesAreAt};
ghost use Rattle.policy_select.specs.Rules.{FirstSays, IsOf};
ghost use Rattle.policy_select.specs.declared.rules.Rule.TheVariants as rule;

use crate::group::{MOST, policy_copied, policy_pieces};
use crate::parts::{
    behind_ident, ident_size, name_of, octet_behind, octet_in, place_at, place_whole, region_whole,
    role_at, role_behind,
};
use routing::{Place, Region, Role, Routing};
use zone_table::{Group, Ident, Scratch, Zones, behind_text, fields_are_read, region_at};

/// A policy, with what the set says by it where that is short.
#[derive(Clone, Copy)]
pub(crate) enum Rule {
    Simple,
    Weighted(u8),
    Failover(Role),
    Geolocation(Place),
    Latency,
    Multivalue,
    Cidr,
}

/// The policy of the set that is held.
pub(crate) fn rule_held(scratch: &Scratch) -> Rule
    requires { IsHolding scratch.now }
    ensures { IfSome scratch.now (λ set. IsOf result set.routing) }
{
    rule_in(scratch.policy())
}

/// The policy at the front.
#[inline(always)]
fn rule_in(octets: &[u8]) -> Rule
    ensures { (routing : Routing) (rest : List ℕ) → IsRouting routing
        → octets.now ≡ routing_octets routing ++ rest → IsOf result routing }
{
    match octets {
        [0, ..] => Rule::Simple,
        [1, others @ ..] => Rule::Weighted(octet_in(behind_text(others))),
        [2, others @ ..] => Rule::Failover(role_at(behind_text(others))),
        [3, others @ ..] => Rule::Geolocation(place_at(behind_text(others))),
        [4, ..] => Rule::Latency,
        [5, ..] => Rule::Multivalue,
        _ => Rule::Cidr,
    }
}

/// The policy of the first set of a group; it is told whether that one is held.
#[inline(always)]
pub(crate) fn rule_of(zones: &Zones, group: Group, at: usize, held: bool, scratch: &Scratch) -> Rule
    requires group { IsGroupNow zones.now.zones group }
    requires some { 0 < group.length }
    requires at { PoliciesAreAt (sets_in zones.now.zones group) at }
    requires held { IsTrue held → scratch.now ≡ slice_get (sets_in zones.now.zones group) 0 }
    ensures { (set : RecordSet) × (slice_get (sets_in zones.now.zones group) 0 ≡ Some set)
        × IsOf result set.routing }
{
    if held {
        has_first(zones, group);
        return rule_held(scratch);
    }
    rule_of_first(zones, group, at)
}

/// A group that isn't empty has a first set; it does nothing.
fn has_first(zones: &Zones, group: Group)
    requires group { IsGroupNow zones.now.zones group }
    requires some { 0 < group.length }
    ensures { (set : RecordSet) × (slice_get (sets_in zones.now.zones group) 0 ≡ Some set) }
{}

/// The same, read in the 32 octets of the set among which it begins and the 32 behind those, and copied
/// only where these don't tell it.
#[inline(always)]
fn rule_of_first(zones: &Zones, group: Group, at: usize) -> Rule
    requires group { IsGroupNow zones.now.zones group }
    requires some { 0 < group.length }
    requires at { PoliciesAreAt (sets_in zones.now.zones group) at }
    ensures { (set : RecordSet) × (slice_get (sets_in zones.now.zones group) 0 ≡ Some set)
        × IsOf result set.routing }
{
    let slots = zones.slots_of(group);
    let (front, next) = policy_pieces(zones, group, slots, at, 0);
    match rule_in_parts(front, next) {
        Some(rule) => rule,
        None => rule_copied(zones, group, slots, at),
    }
}

/// The same, from a copy of the policy.
// Apart, so that most groups pass by what they don't need.
#[inline(never)]
fn rule_copied(zones: &Zones, group: Group, slots: &[u32], at: usize) -> Rule
    requires group { IsGroupNow zones.now.zones group }
    requires some { 0 < group.length }
    requires slots { AreMembers zones.now.zones group slots.now at }
    ensures { (set : RecordSet) × (slice_get (sets_in zones.now.zones group) 0 ≡ Some set)
        × IsOf result set.routing }
{
    rule_in(policy_copied(zones, group, slots, at, 0, &mut [0; MOST]))
}

/// The policy of a set, of which the beginning is there in two parts, one behind the other. None where
/// they don't tell it.
#[inline(always)]
fn rule_in_parts(front: &[u8], next: &[u8]) -> Option<Rule>
    ensures { (set : RecordSet) → IsFrontOfPolicy (front.now ++ next.now) set
        → IfSome result (λ rule. IsOf rule set.routing) }
{
    let Some((kind, size)) = first_two(front) else {
        return None;
    };
    let said = behind_ident(front, next, size);
    match kind {
        0 => Some(Rule::Simple),
        1 => match octet_behind(said, 0) {
            Some(weight) => Some(Rule::Weighted(weight)),
            None => None,
        },
        2 => match role_behind(said, 0) {
            Some(role) => Some(Rule::Failover(role)),
            None => None,
        },
        3 => match place_whole(said) {
            Some(place) => Some(Rule::Geolocation(place)),
            None => None,
        },
        4 => Some(Rule::Latency),
        5 => Some(Rule::Multivalue),
        6 => Some(Rule::Cidr),
        _ => None,
    }
}

/// The first two octets: the kind of a policy, and how many octets its identifier has, if it has one.
#[inline(always)]
fn first_two(octets: &[u8]) -> Option<(u8, u8)>
    ensures { (all : List ℕ) (n : ℕ) → octets.now ≡ take n all
        → IfSome result (λ two. take 2 all ≡ two.0 ∷ two.1 ∷ []) }
{
    match octets {
        [kind, size, ..] => Some((*kind, *size)),
        _ => None,
    }
}

/// The region of the first set of a group, which is of latency, read in the same way.
#[inline(always)]
pub(crate) fn region_of_first(zones: &Zones, group: Group, at: usize) -> Region
    requires group { IsGroupNow zones.now.zones group }
    requires some { 0 < group.length }
    requires at { PoliciesAreAt (sets_in zones.now.zones group) at }
    requires latency { (set : RecordSet) → slice_get (sets_in zones.now.zones group) 0 ≡ Some set
        → IsOf rule.Latency set.routing }
    ensures { FirstSays region_of result (sets_in zones.now.zones group) }
{
    let slots = zones.slots_of(group);
    let (front, next) = policy_pieces(zones, group, slots, at, 0);
    let Some(size) = ident_size(front, 4) else {
        return region_copied(zones, group, slots, at);
    };
    match region_whole(behind_ident(front, next, size)) {
        Some(region) => region,
        None => region_copied(zones, group, slots, at),
    }
}

/// The same, from a copy of the policy.
// Apart, so that most groups pass by what they don't need.
#[inline(never)]
fn region_copied(zones: &Zones, group: Group, slots: &[u32], at: usize) -> Region
    requires group { IsGroupNow zones.now.zones group }
    requires some { 0 < group.length }
    requires slots { AreMembers zones.now.zones group slots.now at }
    requires latency { (set : RecordSet) → slice_get (sets_in zones.now.zones group) 0 ≡ Some set
        → IsOf rule.Latency set.routing }
    ensures { FirstSays region_of result (sets_in zones.now.zones group) }
{
    region_of_policy(policy_copied(zones, group, slots, at, 0, &mut [0; MOST]))
}

/// The region of a latency policy at the front.
fn region_of_policy(octets: &[u8]) -> Region
    requires { (ident region rest : List ℕ) × IsRegion region
        × (octets.now ≡ routing_octets (policy.Latency ident region) ++ rest) }
    ensures { (ident region rest : List ℕ) → IsRegion region
        → octets.now ≡ routing_octets (policy.Latency ident region) ++ rest → result ≡ region }
{
    match octets {
        [_, others @ ..] => region_there(behind_text(others)),
        [] => unreachable!(),
    }
}

/// The region at the front.
fn region_there(octets: &[u8]) -> Region
    requires { (region rest : List ℕ) × IsRegion region
        × (octets.now ≡ text_octets region ++ rest) }
    ensures { (region rest : List ℕ) → IsRegion region → octets.now ≡ text_octets region ++ rest
        → result ≡ region }
{
    fields_are_read();
    match region_at(octets) {
        Ok((region, _)) => region,
        Err(_) => unreachable!(),
    }
}

/// The number of the collection of the set that is held, which is of a group of IP-based routing,
/// and the location in it.
// Apart, so that other policies pass by the room for one that is copied whole.
#[inline(never)]
pub(crate) fn block_held(scratch: &Scratch) -> (u32, Ident)
    requires held { IsHolding scratch.now }
    requires cidr { IfSome scratch.now (λ set. IsOf rule.Cidr set.routing) }
    ensures { IfSome scratch.now (λ set. (ident : List ℕ)
        × (set.routing ≡ policy.Cidr ident result.0 result.1)) }
{
    held_is_spelled(scratch);
    block_of_routing(&scratch.routing())
}

/// The policy of a set that is held has a spelling; it does nothing.
fn held_is_spelled(scratch: &Scratch)
    requires { IsHolding scratch.now }
    ensures { IfSome scratch.now (λ set. IsSpelledRouting set.routing) }
{
    let _ = scratch.policy();
}

/// The same of a policy that was read, which has a spelling.
fn block_of_routing(routing: &Routing) -> (u32, Ident)
    requires spelled { IsSpelledRouting routing.now }
    requires cidr { IsOf rule.Cidr routing.now }
    ensures { (ident : List ℕ) × (routing.now ≡ policy.Cidr ident result.0 result.1) }
{
    match routing {
        Routing::Cidr(_, id, location) => (*id, name_of(location)),
        _ => unreachable!(),
    }
}
