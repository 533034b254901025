//! The valves of target groups: one for each, whatever aliases lead to it.

ghost use Rattle.std.specs.Prelude.{◌≡◌, ◌≢◌, ◌≤◌, ◌<◌, ◌+◌, ◌++◌, ◌^◌, [], ℕ, List, Some, length, slice_get, suc, true, vec_capacity};
ghost use Rattle.health_valves.specs.Blueprint.{KeepsRoom, feeders_in};
ghost use Rattle.health_valves.specs.declared.blueprint.Trigger.{Trigger};
ghost use Rattle.record_set.specs.declared.sets.Body.TheVariants.{Alias};
ghost use Rattle.record_set.specs.declared.sets.RecordSet.{RecordSet};
ghost use Rattle.policy_select.specs.Zones.{placed_in};
ghost use Rattle.zone_model.specs.Slotted.{sets_of};
ghost use Rattle.zone_model.specs.Walks.{HasNoTarget};
ghost use Rattle.policy_select.specs.Looking.{RefersTo};
ghost use Rattle.health_planning.specs.Building.{AreBelow, AreNoted, AreSeated, AreWithin, HasTarget};
ghost use Rattle.health_planning.specs.Building.{SameSets, links_to};
ghost use Rattle.health_planning.specs.Rooms.{CanGroup, HaveValvesApart};
ghost use Rattle.health_planning.specs.Wired.{check_seat, valves_of, group_seat, only_check, own_part, plain};
ghost use Rattle.health_planning.specs.Wired.{plain_among, with_valve};
ghost use Rattle.policy_select.specs.Groups.{members_of};
ghost use Rattle.policy_select.specs.Looking.{IsGroupNow};

use crate::seats::{Seat, own_valve, seat_at};
use health_valves::{Blueprint, Feeding, Trigger};
use policy_select::{Group, SetRef, Zones, find_group};

/// The number of the check that alone decides the set in a slot, as its seat tells it; 0 where there
/// is none such.
pub fn check_at(seats: &[Seat], slot: u32) -> u32
    ensures { result ≡ check_seat seats.now slot }
{
    let at = slot as usize;
    if at >= seats.len() {
        return 0;
    }
    seats[at].check
}

/// Whether the set of a seat has no valve of its own, as a number.
fn plain_at(seat: Seat) -> usize
    ensures { result ≡ plain (own_part seat.set) }
{
    if own_valve(seat.set) == 0 { 1 } else { 0 }
}

/// How many sets of a group have no valve.
fn count_plain(zones: &Zones, group: Group, seats: &[Seat]) -> usize
    requires group { IsGroupNow zones.now.zones group }
    requires slots { length seats.now ≡ zones.now.slots }
    ensures { result ≡ plain_among seats.now (members_of zones.now.zones group) }
{
    zones.slots_within();
    let mut plains = 0;
    for i in 0..group.length {
        let seat = seat_at(seats, zones.member(group, i).slot);
        plains += plain_at(seat);
    }
    plains
}

/// A valve that is given as one more, or as 0 where there is none, feeds another.
pub fn join_seat(seat: u32, valve: u32, blueprint: &mut Blueprint)
    requires room { length (with_valve seat []) ≤ blueprint.old.links_room }
    ensures triggers { blueprint.new.triggers ≡ blueprint.old.triggers }
    ensures links { blueprint.new.links ≡ blueprint.old.links ++ links_to valve (with_valve seat []) }
    ensures kept { KeepsRoom blueprint.old blueprint.new }
    ensures few { blueprint.old.links_room ≤ blueprint.new.links_room + 1 }
{
    if seat == 0 {
        return;
    }
    blueprint.feed(Feeding {
        feeder: seat - 1,
        fed: valve,
    });
}

/// What feeds the valve of a group: those of its sets that have one.
fn join_members(zones: &Zones, group: Group, seats: &[Seat], valve: u32, blueprint: &mut Blueprint)
    requires group { IsGroupNow zones.now.zones group }
    requires slots { length seats.now ≡ zones.now.slots }
    requires room { length (valves_of seats.now (members_of zones.now.zones group))
        ≤ blueprint.old.links_room }
    ensures triggers { blueprint.new.triggers ≡ blueprint.old.triggers }
    ensures links { blueprint.new.links ≡ blueprint.old.links
        ++ links_to valve (valves_of seats.now (members_of zones.now.zones group)) }
    ensures kept { KeepsRoom blueprint.old blueprint.new }
{
    zones.slots_within();
    for i in 0..group.length {
        let seat = seat_at(seats, zones.member(group, i).slot);
        join_seat(own_valve(seat.set), valve, blueprint);
    }
}

/// Seats the set in a slot at the valve of its group, which is given as one more.
fn seat_one(seats: &mut Vec<Seat>, slot: u32, valve: u32)
    requires { slot < length seats.old.items }
    ensures sets { SameSets seats.old.items seats.new.items }
    ensures size { length seats.new.items ≡ length seats.old.items }
    ensures here { group_seat seats.new.items slot ≡ valve }
    ensures others { (other : ℕ) → other ≢ slot
        → group_seat seats.new.items other ≡ group_seat seats.old.items other }
{
    let seat = seat_at(seats, slot);
    seats[slot as usize] = Seat {
        group: valve,
        ..seat
    };
}

/// Notes a set that is about to be seated at the valve of its group, where it sat at none.
fn note_one(set: SetRef, seats: &[Seat], members: &mut Vec<SetRef>)
    requires slot { set.slot < length seats.now }
    requires noted { AreNoted members.old.items seats.now }
    requires room { length seats.now ≤ vec_capacity members.old }
    ensures noted { (after : List Seat) → group_seat after set.slot ≢ 0
        → ((other : ℕ) → other ≢ set.slot
        → group_seat after other ≡ group_seat seats.now other)
        → AreNoted members.new.items after }
    ensures room { vec_capacity members.new ≡ vec_capacity members.old }
{
    let seat = seat_at(seats, set.slot);
    if seat.group != 0 {
        return;
    }
    members.push_reserved(set);
}

/// Seats the sets of a group at its valve, which is given as one more, and notes them.
fn seat_members(
    zones: &Zones,
    group: Group,
    valve: u32,
    seats: &mut Vec<Seat>,
    members: &mut Vec<SetRef>,
)
    requires group { IsGroupNow zones.now.zones group }
    requires slots { length seats.old.items ≡ zones.now.slots }
    requires valve { 0 < valve }
    requires noted { AreNoted members.old.items seats.old.items }
    requires room { length seats.old.items ≤ vec_capacity members.old }
    ensures seated { AreSeated (members_of zones.now.zones group) valve
        seats.old.items seats.new.items }
    ensures noted { AreNoted members.new.items seats.new.items }
    ensures room { vec_capacity members.new ≡ vec_capacity members.old }
{
    zones.slots_within();
    for i in 0..group.length {
        let set = zones.member(group, i);
        note_one(set, seats, members);
        seat_one(seats, set.slot, valve);
    }
}

/// Gives the target group of a set a valve, where its health counts and it has none. A set that a check
/// alone decides isn't read: its seat tells as much.
pub fn group_one(
    zones: &Zones,
    set: SetRef,
    seats: &mut Vec<Seat>,
    blueprint: &mut Blueprint,
    members: &mut Vec<SetRef>,
)
    requires slots { length seats.old.items ≡ zones.now.slots }
    requires below { AreBelow seats.old.items (length blueprint.old.triggers) }
    requires within { AreWithin blueprint.old.links (length blueprint.old.triggers) }
    requires targets { (named : RecordSet) → RefersTo zones.now.zones set named
        → HasNoTarget (sets_of (placed_in zones.now.zones set.zone)) named → ⊥ }
    requires room { (from : ℕ) × ((base : ℕ)
        × CanGroup zones.now.zones from base seats.old.items blueprint.old) }
    requires noted { AreNoted members.old.items seats.old.items }
    requires members_room { length seats.old.items ≤ vec_capacity members.old }
    requires told { (named : RecordSet) → RefersTo zones.now.zones set named
        → check_seat seats.old.items set.slot ≡ only_check named }
    ensures grouped { (from base : ℕ)
        → CanGroup zones.now.zones from base seats.old.items blueprint.old
        → CanGroup zones.now.zones from base seats.new.items blueprint.new }
    ensures kept { KeepsRoom blueprint.old blueprint.new }
    ensures here { (named : RecordSet) (name : List (List ℕ))
        → RefersTo zones.now.zones set named → named.body ≡ Alias name true
        → HasTarget zones.now.zones seats.new.items set.zone name named.rtype }
    ensures goes_on { (slot valve : ℕ) → group_seat seats.old.items slot ≡ suc valve
        → group_seat seats.new.items slot ≡ suc valve }
    ensures sets { SameSets seats.old.items seats.new.items }
    ensures triggers { (n : ℕ) (trigger : Trigger) → slice_get blueprint.old.triggers n ≡ Some trigger
        → slice_get blueprint.new.triggers n ≡ Some trigger }
    ensures feeders { (valve : ℕ) → valve < length blueprint.old.triggers
        → feeders_in blueprint.new.links valve ≡ feeders_in blueprint.old.links valve }
    ensures more { length blueprint.old.triggers ≤ length blueprint.new.triggers }
    ensures within { AreWithin blueprint.new.links (length blueprint.new.triggers) }
    ensures size { length seats.new.items ≡ length seats.old.items }
    ensures noted { AreNoted members.new.items seats.new.items }
    ensures members_room { vec_capacity members.new ≡ vec_capacity members.old }
{
    zones.well_formed();
    zones.slots_apart();
    zones.slots_within();
    let only = check_at(seats, set.slot);
    if only != 0 {
        return;
    }
    let Some(watch) = zones.watch(set) else {
        return;
    };
    if !watch.evaluates {
        return;
    }
    let Some(target) = zones.target(set) else {
        return;
    };
    let group = find_group(zones, set.zone, &target.0, target.1);
    if group.length == 0 {
        return;
    }
    let first = zones.member(group, 0).slot;
    let seat = seat_at(seats, first);
    if seat.group != 0 {
        return;
    }
    let plains = count_plain(zones, group, seats);
    let trigger = Trigger {
        need: 1,
        inverted: false,
        own: plains as u32,
    };
    let valve = blueprint.len() as u32;
    blueprint.push(trigger);
    join_members(zones, group, seats, valve, blueprint);
    seat_members(zones, group, valve + 1, seats, members);
}

/// Gives the target groups of sets valves, and notes the sets of these groups.
pub fn group_all(
    zones: &Zones,
    refs: &[SetRef],
    seats: &mut Vec<Seat>,
    blueprint: &mut Blueprint,
    members: &mut Vec<SetRef>,
)
    requires slots { length seats.old.items ≡ zones.now.slots }
    requires below { AreBelow seats.old.items (length blueprint.old.triggers) }
    requires within { AreWithin blueprint.old.links (length blueprint.old.triggers) }
    requires none { (slot : ℕ) → group_seat seats.old.items slot ≡ 0 }
    requires apart { HaveValvesApart seats.old.items }
    requires few { length blueprint.old.triggers + length seats.old.items ≤ 2 ^ 31 }
    requires room { length seats.old.items ≤ blueprint.old.room }
    requires links_room { length blueprint.old.triggers ≤ blueprint.old.links_room }
    requires targets { (set : SetRef) (named : RecordSet) → RefersTo zones.now.zones set named
        → HasNoTarget (sets_of (placed_in zones.now.zones set.zone)) named → ⊥ }
    requires none_noted { members.old.items ≡ [] }
    requires members_room { length seats.old.items ≤ vec_capacity members.old }
    requires told { (k : ℕ) (set : SetRef) (named : RecordSet) → slice_get refs.now k ≡ Some set
        → RefersTo zones.now.zones set named
        → check_seat seats.old.items set.slot ≡ only_check named }
    ensures grouped { CanGroup zones.now.zones (length blueprint.old.triggers) (length blueprint.old.links)
        seats.new.items blueprint.new }
    ensures kept { KeepsRoom blueprint.old blueprint.new }
    ensures all { (k : ℕ) (set : SetRef) (named : RecordSet) (name : List (List ℕ))
        → slice_get refs.now k ≡ Some set → RefersTo zones.now.zones set named
        → named.body ≡ Alias name true
        → HasTarget zones.now.zones seats.new.items set.zone name named.rtype }
    ensures sets { SameSets seats.old.items seats.new.items }
    ensures triggers { (n : ℕ) (trigger : Trigger) → slice_get blueprint.old.triggers n ≡ Some trigger
        → slice_get blueprint.new.triggers n ≡ Some trigger }
    ensures feeders { (valve : ℕ) → valve < length blueprint.old.triggers
        → feeders_in blueprint.new.links valve ≡ feeders_in blueprint.old.links valve }
    ensures more { length blueprint.old.triggers ≤ length blueprint.new.triggers }
    ensures within { AreWithin blueprint.new.links (length blueprint.new.triggers) }
    ensures size { length seats.new.items ≡ length seats.old.items }
    ensures noted { AreNoted members.new.items seats.new.items }
{
    for set in refs {
        group_one(zones, *set, seats, blueprint, members);
    }
}
