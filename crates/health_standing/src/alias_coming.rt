//! Commands by which one evaluated alias comes, of a group without a valve, while its target group has one: as
//! another alias leads there. Its own valve stands behind all others, and feeds none.

ghost use Rattle.std.specs.Prelude.{◌≡◌, ◌≤◌, ◌<◌, ◌+◌, ◌↔◌, ℕ, All, IsTrue, List, None, Option, Some, length};
ghost use Rattle.std.specs.Prelude.{vec_capacity};
ghost use Rattle.health_standing.specs.Leading.{ComesToLead, HasItsCheck, IsSeatedOwn, IsTargetSeat};
ghost use Rattle.health_standing.specs.Leading.{feeders_with, listed_in};
ghost use Rattle.health_standing.specs.declared.alias_coming.AliasFeeders.{AliasFeeders};
ghost use Rattle.health_planning.specs.Looking.{RefersTo};
ghost use Rattle.health_planning.specs.Wired.{StandApart};
ghost use Rattle.health_valves.specs.Laying.{HasRoomFor, HasRoomForOne, links_of};
ghost use Rattle.health_valves.specs.Pass.{IsIdle, MeetAll};
ghost use Rattle.health_valves.specs.Valves.{IsReady, Net, ValvesStandFor, fed_condition, size_of};
ghost use Rattle.health_valves.specs.Valves.{with_one_more, with_own};
ghost use Rattle.record_set.specs.declared.sets.RecordSet.{RecordSet};

use crate::coming::alias_alone;
use crate::finding::find_seat;
use health_planning::{
    Scratch, Seat, SetRef, Zones, find_group, grow_seats, number_at, place_near,
};
use health_valves::Valves;

/// What feeds the valve of an evaluated alias: the valve of the check that it names, if it names one, and that
/// of its target group.
#[derive(Clone, Copy)]
pub struct AliasFeeders {
    pub(crate) check: Option<u32>,
    pub(crate) group: u32,
}

/// The valve of the target group of an alias, given as one more; 0 where it has none.
fn target_seat(zones: &Zones, seats: &[Seat], set: SetRef) -> u32
    ensures { (named : RecordSet) → RefersTo zones.now.zones set named
        → IsTargetSeat zones.now.zones seats.now set.zone named result }
{
    zones.well_formed();
    let Some(target) = zones.target(set) else {
        return 0;
    };
    let group = find_group(zones, set.zone, &target.0, target.1);
    if group.length == 0 {
        return 0;
    }
    find_seat(seats, zones.member(group, 0).slot).group
}

/// The valves of a check that is named, if one is, and of a group. None where no check has the number.
fn feeders_from(
    ids: &[u32],
    numbers: &[u32],
    check: Option<u32>,
    group: u32,
) -> Option<AliasFeeders>
    requires apart { StandApart ids.now }
    requires as_many { length numbers.now ≡ length ids.now }
    ensures found { (its : AliasFeeders) → result ≡ Some its
        → HasItsCheck ids.now check × (listed_in its ≡ feeders_with ids.now numbers.now check group) }
    ensures none { result ≡ None → HasItsCheck ids.now check → ⊥ }
{
    let Some(id) = check else {
        return Some(AliasFeeders { check: None, group });
    };
    let Some(place) = place_near(ids, id) else {
        return None;
    };
    Some(AliasFeeders {
        check: Some(number_at(numbers, place)),
        group,
    })
}

/// Whether these are valves that there are.
fn are_within(valves: &Valves, feeders: AliasFeeders) -> bool
    ensures { IsTrue result ↔ All (λ x. x < size_of valves.now) (listed_in feeders) }
{
    let many = valves.len();
    let group = (feeders.group as usize) < many;
    match feeders.check {
        Some(check) => (check as usize) < many && group,
        None => group,
    }
}

/// What is to feed the valve of an evaluated alias that came, where its own group has no valve and its target
/// group has one. The alias is read into the scratch.
pub fn alias_come(
    zones: &Zones,
    ids: &[u32],
    numbers: &[u32],
    seats: &[Seat],
    valves: &Valves,
    set: SetRef,
    scratch: &mut Scratch,
) -> Option<AliasFeeders>
    requires apart { StandApart ids.now }
    requires as_many { length numbers.now ≡ length ids.now }
    ensures found { (its : AliasFeeders) → result ≡ Some its
        → ComesToLead zones.now.zones ids.now numbers.now seats.now valves.now set (listed_in its) }
    ensures all { (feeders : List ℕ)
        → ComesToLead zones.now.zones ids.now numbers.now seats.now valves.now set feeders
        → (its : AliasFeeders) × ((result ≡ Some its) × (listed_in its ≡ feeders)) }
{
    zones.well_formed();
    let Some(watch) = alias_alone(zones, seats, valves, set, scratch) else {
        return None;
    };
    let told = target_seat(zones, seats, set);
    if told == 0 {
        return None;
    }
    let Some(feeders) = feeders_from(ids, numbers, watch.check, told - 1) else {
        return None;
    };
    if !are_within(valves, feeders) {
        return None;
    }
    Some(feeders)
}

/// One valve more, behind all, which these feed. It takes no memory.
pub fn push_alias(valves: &mut Valves, feeders: AliasFeeders)
    requires ready { IsReady valves.old }
    requires idle { IsIdle valves.old }
    requires feeders { All (λ x. x < size_of valves.old) (listed_in feeders) }
    requires room { HasRoomForOne valves.old 2 }
    ensures fits { (net : Net) (own : ℕ → ℕ) → ValvesStandFor net own valves.old
        → ValvesStandFor (with_one_more (fed_condition (listed_in feeders)) net) (with_own net.size 0 own) valves.new }
    ensures idle { IsIdle valves.new }
    ensures meet { (net : Net) (own : ℕ → ℕ) → ValvesStandFor net own valves.old → MeetAll net own valves.old
        → MeetAll (with_one_more (fed_condition (listed_in feeders)) net) (with_own net.size 0 own) valves.new }
    ensures size { size_of valves.new ≡ size_of valves.old + 1 }
    ensures links { links_of valves.new ≤ links_of valves.old + 2 }
    ensures room { (n m : ℕ) → HasRoomFor valves.old n m → HasRoomFor valves.new n m }
{
    match feeders.check {
        Some(check) => valves.push_fed(&[check, feeders.group]),
        None => valves.push_fed(&[feeders.group]),
    }
}

/// Another seat in a slot: one that tells a valve of the set's own, given as one more.
pub(crate) fn put_own(seats: &mut Vec<Seat>, slot: u32, told: u32)
    requires { slot < length seats.old.items }
    ensures seated { IsSeatedOwn slot told seats.old.items seats.new.items }
    ensures room { vec_capacity seats.new ≡ vec_capacity seats.old }
{
    seats[slot as usize] = Seat {
        set: told,
        group: 0,
        check: 0,
    };
}

/// The same in a slot of zones, which may be behind all seats.
pub fn own_in(zones: &Zones, seats: &mut Vec<Seat>, slot: u32, told: u32)
    requires room { zones.now.slots ≤ vec_capacity seats.old }
    requires slot { slot < zones.now.slots }
    ensures seated { IsSeatedOwn slot told seats.old.items seats.new.items }
    ensures room { vec_capacity seats.new ≡ vec_capacity seats.old }
{
    grow_seats(seats, zones.slots());
    put_own(seats, slot, told);
}
