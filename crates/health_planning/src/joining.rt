//! What feeds the valves of sets: those of their checks, and of their target groups.

ghost use Rattle.std.specs.Prelude.{◌≡◌, ◌≤◌, ◌<◌, ◌+◌, ◌*◌, ◌++◌, ◌^◌, ◌⊎◌, [], ℕ, Some};
ghost use Rattle.std.specs.Prelude.{length, map, slice_get, suc};
ghost use Rattle.std.specs.Option.{option_to_list};
ghost use Rattle.health_valves.specs.Blueprint.{KeepsRoom, feeders_in};
ghost use Rattle.health_planning.specs.Building.{AreWithin, FeedsSet, HasTargetValve, JoinsSet};
ghost use Rattle.health_planning.specs.Building.{links_to};
ghost use Rattle.health_planning.specs.Wired.{HaveValves, StandApart, check_seat, group_seat};
ghost use Rattle.health_planning.specs.Wired.{only_check, valve_with};
ghost use Rattle.health_planning.specs.Wired.{with_valve};
ghost use Rattle.record_set.specs.declared.sets.RecordSet.{RecordSet};
ghost use Rattle.policy_select.specs.Zones.{placed_in};
ghost use Rattle.policy_select.specs.SetRefRecord.{SetRef};
ghost use Rattle.zone_model.specs.Slotted.{sets_of};
ghost use Rattle.zone_model.specs.Walks.{HasNoTarget};
ghost use Rattle.policy_select.specs.Looking.{RefersTo};

use crate::building::MOST_CHECKS;
use crate::finding::valve_with;
use crate::grouping::{check_at, join_seat};
use crate::seats::{Seat, seat_at};
use health_valves::{Blueprint, Feeding};
use policy_select::{SetRef, Zones, find_group};

/// The valve of the target group of a set, plus one, where its health counts, and else 0.
fn target_seat(zones: &Zones, set: SetRef, seats: &[Seat]) -> u32
    requires slots { length seats.now ≡ zones.now.slots }
    requires targets { (named : RecordSet) → RefersTo zones.now.zones set named
        → HasNoTarget (sets_of (placed_in zones.now.zones set.zone)) named → ⊥ }
    ensures { (named : RecordSet) → RefersTo zones.now.zones set named
        → HasTargetValve zones.now.zones seats.now set.zone named.rtype named.body
        (with_valve result []) }
{
    zones.well_formed();
    zones.slots_within();
    let Some(watch) = zones.watch(set) else {
        return 0;
    };
    if !watch.evaluates {
        return 0;
    }
    let Some(target) = zones.target(set) else {
        return 0;
    };
    let group = find_group(zones, set.zone, &target.0, target.1);
    if group.length == 0 {
        return 0;
    }
    seat_at(seats, zones.member(group, 0).slot).group
}

/// The check of a set.
fn check_of(zones: &Zones, set: SetRef) -> Option<u32>
    ensures { (named : RecordSet) → RefersTo zones.now.zones set named → result ≡ named.check }
{
    zones.well_formed();
    match zones.watch(set) {
        Some(watch) => watch.check,
        None => None,
    }
}

/// The valve of a check feeds another, where there is a check.
fn join_check(
    blueprint: &mut Blueprint,
    ids: &[u32],
    numbers: &[u32],
    check: Option<u32>,
    valve: u32,
)
    requires there { (id : ℕ) → check ≡ Some id
        → (place : ℕ) × (slice_get ids.now place ≡ Some id) }
    requires apart { StandApart ids.now }
    requires as_many { length numbers.now ≡ length ids.now }
    requires room { 1 ≤ blueprint.old.links_room }
    ensures triggers { blueprint.new.triggers ≡ blueprint.old.triggers }
    ensures links { blueprint.new.links
        ≡ blueprint.old.links
        ++ links_to valve (map (valve_with ids.now numbers.now) (option_to_list check)) }
    ensures kept { KeepsRoom blueprint.old blueprint.new }
    ensures few { blueprint.old.links_room ≤ blueprint.new.links_room + 1 }
{
    let Some(id) = check else {
        return;
    };
    let Some(feeder) = valve_with(ids, numbers, id) else {
        unreachable!();
    };
    blueprint.feed(Feeding { feeder, fed: valve });
}

/// What feeds the valve of a set. Where a check alone decides it the set isn't read: its seat tells
/// which.
fn join_set(
    zones: &Zones,
    set: SetRef,
    ids: &[u32],
    numbers: &[u32],
    seats: &[Seat],
    valve: u32,
    blueprint: &mut Blueprint,
)
    requires slots { length seats.now ≡ zones.now.slots }
    requires targets { (named : RecordSet) → RefersTo zones.now.zones set named
        → HasNoTarget (sets_of (placed_in zones.now.zones set.zone)) named → ⊥ }
    requires named { (named : RecordSet) × RefersTo zones.now.zones set named }
    requires there { (named : RecordSet) (id : ℕ) → RefersTo zones.now.zones set named
        → named.check ≡ Some id → (place : ℕ) × (slice_get ids.now place ≡ Some id) }
    requires told { (named : RecordSet) → RefersTo zones.now.zones set named
        → check_seat seats.now set.slot ≡ only_check named }
    requires apart { StandApart ids.now }
    requires as_many { length numbers.now ≡ length ids.now }
    requires room { 2 ≤ blueprint.old.links_room }
    ensures triggers { blueprint.new.triggers ≡ blueprint.old.triggers }
    ensures links { (named : RecordSet) → RefersTo zones.now.zones set named
        → JoinsSet zones.now.zones ids.now numbers.now seats.now set.zone named valve
        blueprint.old.links blueprint.new.links }
    ensures kept { KeepsRoom blueprint.old blueprint.new }
    ensures few { blueprint.old.links_room ≤ blueprint.new.links_room + 2 }
{
    zones.well_formed();
    let only = check_at(seats, set.slot);
    if only != 0 {
        join_check(blueprint, ids, numbers, Some(only), valve);
        return;
    }
    let target = target_seat(zones, set, seats);
    join_check(blueprint, ids, numbers, check_of(zones, set), valve);
    join_seat(target, valve, blueprint);
}

/// What feeds the valves of sets, which stand behind those of checks.
pub fn join_sets(
    zones: &Zones,
    refs: &[SetRef],
    ids: &[u32],
    numbers: &[u32],
    seats: &[Seat],
    blueprint: &mut Blueprint,
)
    requires slots { length seats.now ≡ zones.now.slots }
    requires targets { (set : SetRef) (named : RecordSet) → RefersTo zones.now.zones set named
        → HasNoTarget (sets_of (placed_in zones.now.zones set.zone)) named → ⊥ }
    requires named { (k : ℕ) (set : SetRef) → slice_get refs.now k ≡ Some set
        → (named : RecordSet) × RefersTo zones.now.zones set named }
    requires there { (set : SetRef) (named : RecordSet) (id : ℕ) → RefersTo zones.now.zones set named
        → named.check ≡ Some id → (place : ℕ) × (slice_get ids.now place ≡ Some id) }
    requires told { (k : ℕ) (set : SetRef) (named : RecordSet) → slice_get refs.now k ≡ Some set
        → RefersTo zones.now.zones set named → check_seat seats.now set.slot ≡ only_check named }
    requires apart { StandApart ids.now }
    requires valves { HaveValves (length ids.now) numbers.now }
    requires few_sets { 200 + length refs.now ≤ 2 ^ 32 }
    requires room { 2 * length refs.now ≤ blueprint.old.links_room }
    ensures triggers { blueprint.new.triggers ≡ blueprint.old.triggers }
    ensures kept { KeepsRoom blueprint.old blueprint.new }
    ensures few { blueprint.old.links_room ≤ blueprint.new.links_room + 2 * length refs.now }
    ensures joined { (k : ℕ) (set : SetRef) (named : RecordSet)
        → slice_get refs.now k ≡ Some set → RefersTo zones.now.zones set named
        → feeders_in blueprint.old.links (200 + k) ≡ []
        → FeedsSet zones.now.zones ids.now numbers.now seats.now set.zone named
        (feeders_in blueprint.new.links (200 + k)) }
    ensures others { (valve : ℕ)
        → (valve < 200) ⊎ (200 + length refs.now ≤ valve)
        → feeders_in blueprint.new.links valve ≡ feeders_in blueprint.old.links valve }
    ensures within { (n : ℕ) → 200 + length refs.now ≤ n
        → ((slot valve : ℕ) → group_seat seats.now slot ≡ suc valve → valve < n)
        → AreWithin blueprint.old.links n → AreWithin blueprint.new.links n }
{
    for (k, set) in refs.iter().enumerate() {
        join_set(
            zones,
            *set,
            ids,
            numbers,
            seats,
            (MOST_CHECKS + k) as u32,
            blueprint,
        );
    }
}
