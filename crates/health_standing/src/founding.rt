//! Commands by which the first evaluated alias comes that leads to a group, of whose sets each has a valve of its own or
//! nothing decides it, while its own group has no valve: that group gets a valve, which those of its sets feed and at which
//! the others are counted, and the alias one behind it.

ghost use Rattle.std.specs.Prelude.{◌≡◌, ◌≤◌, ◌<◌, ◌+◌, ◌-◌, ◌++◌, ◌^◌, ◌↔◌, [], ℕ, All, IsTrue, List, None, Option, Some, length, map, take};
ghost use Rattle.std.specs.Prelude.{vec_capacity};
ghost use Rattle.std.specs.Option.{option_to_list};
ghost use Rattle.health_standing.specs.Founding.{AreGroupedAt, AreOwnBeside, AreSeatedOwned, ComesFirstOwned};
ghost use Rattle.health_standing.specs.Founding.{HasOwnTarget, HasRoomForTwo, IsOwnBeside, refs_of};
ghost use Rattle.health_standing.specs.Founding.{with_group, with_two_counts};
ghost use Rattle.health_standing.specs.Leading.{HasItsCheck};
ghost use Rattle.health_standing.specs.declared.founding.FirstAlias.{FirstAlias};
ghost use Rattle.health_planning.specs.Groups.{members_of};
ghost use Rattle.health_planning.specs.GroupRecord.{Group};
ghost use Rattle.health_planning.specs.Looking.{IsGroupNow, RefersTo};
ghost use Rattle.health_planning.specs.Building.{TellsOn};
ghost use Rattle.health_planning.specs.Wired.{StandApart, group_seat, valve_with, valves_of, with_valve};
ghost use Rattle.health_valves.specs.Laying.{HasRoomFor, links_of};
ghost use Rattle.health_valves.specs.Pass.{IsIdle, MeetAll};
ghost use Rattle.health_valves.specs.Valves.{HasEnds, IsReady, Net, ValvesStandFor, size_of};
ghost use Rattle.record_set.specs.declared.sets.RecordSet.{RecordSet};
ghost use Rattle.zone_model.specs.Slotted.{Slotted};

use crate::alias_coming::{AliasFeeders, push_alias, put_own};
use crate::coming::alias_alone;
use crate::finding::find_seat;
use health_planning::{
    Group, Scratch, Seat, SetRef, Zones, find_group, grow_seats, number_at, own_valve, place_near,
};
use health_valves::Valves;

/// The target group of an evaluated alias, and the valve of the check that it names, if it names one.
#[derive(Clone, Copy)]
pub struct FirstAlias {
    pub group: Group,
    pub check: Option<u32>,
}

/// Whether the seat in another slot than this tells no valve but one of its set's own, and none for its group.
fn is_own_beside(seats: &[Seat], slot: u32, other: u32) -> bool
    ensures { IsTrue result ↔ IsOwnBeside seats.now slot other }
{
    if other == slot {
        return false;
    }
    let seat = find_seat(seats, other);
    if seat.group != 0 {
        return false;
    }
    own_valve(seat.set) == seat.set
}

/// The same of all sets of a group.
fn are_own_beside(zones: &Zones, seats: &[Seat], slot: u32, group: Group) -> bool
    requires { IsGroupNow zones.now.zones group }
    ensures { IsTrue result ↔ AreOwnBeside seats.now slot (members_of zones.now.zones group) }
{
    for i in 0..group.length {
        if !is_own_beside(seats, slot, zones.member(group, i).slot) {
            return false;
        }
    }
    true
}

/// The target group of an alias, of whose sets it is none, where the seats of these tell no valves but those of their
/// own, and none for the group.
fn own_target(zones: &Zones, seats: &[Seat], set: SetRef) -> Option<Group>
    ensures found { (its : Group) (named : RecordSet) → result ≡ Some its → RefersTo zones.now.zones set named
        → IsGroupNow zones.now.zones its × ((its.zone ≡ set.zone)
        × ((its.length ≡ length (members_of zones.now.zones its))
        × HasOwnTarget zones.now.zones seats.now set named (members_of zones.now.zones its))) }
    ensures all { (named : RecordSet) (members : List Slotted) → RefersTo zones.now.zones set named
        → HasOwnTarget zones.now.zones seats.now set named members
        → (its : Group) × ((result ≡ Some its) × (members_of zones.now.zones its ≡ members)) }
{
    zones.well_formed();
    let Some(target) = zones.target(set) else {
        return None;
    };
    let group = find_group(zones, set.zone, &target.0, target.1);
    if group.length == 0 {
        return None;
    }
    if !are_own_beside(zones, seats, set.slot, group) {
        return None;
    }
    Some(group)
}

/// A target group, and the valve of a check that is named, if one is. None where no check has the number.
fn first_from(ids: &[u32], numbers: &[u32], check: Option<u32>, group: Group) -> Option<FirstAlias>
    requires apart { StandApart ids.now }
    requires as_many { length numbers.now ≡ length ids.now }
    ensures found { (its : FirstAlias) → result ≡ Some its → HasItsCheck ids.now check
        × (option_to_list its.check ≡ map (valve_with ids.now numbers.now) (option_to_list check)) }
    ensures group { (its : FirstAlias) → result ≡ Some its → its.group ≡ group }
    ensures none { result ≡ None → HasItsCheck ids.now check → ⊥ }
{
    let Some(id) = check else {
        return Some(FirstAlias { group, check: None });
    };
    let Some(place) = place_near(ids, id) else {
        return None;
    };
    Some(FirstAlias {
        group,
        check: Some(number_at(numbers, place)),
    })
}

/// Whether this is a valve that there is, if it is one.
fn is_there(valves: &Valves, check: Option<u32>) -> bool
    ensures { IsTrue result ↔ All (λ x. x < size_of valves.now) (option_to_list check) }
{
    match check {
        Some(valve) => (valve as usize) < valves.len(),
        None => true,
    }
}

/// The target group of an evaluated alias that came, and the valve of the check that it names, where its own
/// group has no valve, and each set of the target group has one of its own, or nothing decides it. The alias is read into
/// the scratch.
pub fn first_come(
    zones: &Zones,
    ids: &[u32],
    numbers: &[u32],
    seats: &[Seat],
    valves: &Valves,
    set: SetRef,
    scratch: &mut Scratch,
) -> Option<FirstAlias>
    requires apart { StandApart ids.now }
    requires as_many { length numbers.now ≡ length ids.now }
    ensures found { (its : FirstAlias) → result ≡ Some its
        → ComesFirstOwned zones.now.zones ids.now numbers.now seats.now valves.now set
        (members_of zones.now.zones its.group) (option_to_list its.check) }
    ensures group { (its : FirstAlias) → result ≡ Some its
        → IsGroupNow zones.now.zones its.group × ((its.group.zone ≡ set.zone)
        × (its.group.length ≡ length (members_of zones.now.zones its.group))) }
    ensures all { (members : List Slotted) (feeders : List ℕ)
        → ComesFirstOwned zones.now.zones ids.now numbers.now seats.now valves.now set members feeders
        → (its : FirstAlias) × ((result ≡ Some its) × ((members_of zones.now.zones its.group ≡ members)
        × (option_to_list its.check ≡ feeders))) }
{
    zones.well_formed();
    let Some(watch) = alias_alone(zones, seats, valves, set, scratch) else {
        return None;
    };
    let Some(group) = own_target(zones, seats, set) else {
        return None;
    };
    let Some(first) = first_from(ids, numbers, watch.check, group) else {
        return None;
    };
    if !is_there(valves, first.check) {
        return None;
    }
    Some(first)
}

/// Writes a valve behind so many, where one is told, given as one more. The answer is how many these are then; None where
/// there is no place for it.
fn write_valve(told: u32, into: &mut [u32], many: usize) -> Option<usize>
    requires many { many ≤ length into.old }
    ensures found { (now : ℕ) → result ≡ Some now
        → (now ≤ length into.new) × (take now into.new ≡ take many into.old ++ with_valve told []) }
    ensures none { result ≡ None → (length into.old ≤ many) × (1 ≤ told) }
    ensures size { length into.new ≡ length into.old }
{
    if told == 0 {
        return Some(many);
    }
    if many >= into.len() {
        return None;
    }
    into[many] = told - 1;
    Some(many + 1)
}

/// The valves of their own that the sets of a group have, written one behind the other. The answer is how many these are;
/// None where there is no place for them.
pub fn own_valves_in(zones: &Zones, seats: &[Seat], group: Group, into: &mut [u32]) -> Option<usize>
    requires group { IsGroupNow zones.now.zones group }
    ensures found { (many : ℕ) → result ≡ Some many → (many ≤ length into.new)
        × (take many into.new ≡ valves_of seats.now (members_of zones.now.zones group)) }
    ensures none { result ≡ None
        → length into.old < length (valves_of seats.now (members_of zones.now.zones group)) }
    ensures size { length into.new ≡ length into.old }
{
    let mut many: usize = 0;
    for i in 0..group.length {
        let told = own_valve(find_seat(seats, zones.member(group, i).slot).set);
        let Some(now) = write_valve(told, into, many) else {
            return None;
        };
        many = now;
    }
    Some(many)
}

/// Two valves more, behind all: one that some valves feed, and at which so many are counted from outside, at most 2^31,
/// of all of which there has to be one; and one that this and a check's feed, if one is given. It takes no memory.
pub fn push_first(valves: &mut Valves, check: Option<u32>, fed: &[u32], sets: u32)
    requires ready { IsReady valves.old }
    requires idle { IsIdle valves.old }
    requires check { All (λ x. x < size_of valves.old) (option_to_list check) }
    requires fed { All (λ x. x < size_of valves.old) fed.now }
    requires few_fed { length fed.now < 2 ^ 31 }
    requires sets { sets ≤ 2 ^ 31 }
    requires few { size_of valves.old < 2 ^ 32 }
    requires room { HasRoomForTwo valves.old (length fed.now) }
    ensures fits { (net : Net) (own : ℕ → ℕ) → ValvesStandFor net own valves.old
        → ValvesStandFor (with_group fed.now (option_to_list check) net) (with_two_counts sets net.size own) valves.new }
    ensures idle { IsIdle valves.new }
    ensures meet { (net : Net) (own : ℕ → ℕ) → ValvesStandFor net own valves.old
        → HasEnds (with_group fed.now (option_to_list check) net) → MeetAll net own valves.old
        → MeetAll (with_group fed.now (option_to_list check) net) (with_two_counts sets net.size own) valves.new }
    ensures size { size_of valves.new ≡ size_of valves.old + 2 }
    ensures links { links_of valves.new ≤ links_of valves.old + length fed.now + 2 }
    ensures room { (n m : ℕ) → HasRoomFor valves.old n m → HasRoomFor valves.new n m }
{
    let group = valves.len() as u32;
    valves.push_fed(fed);
    push_alias(valves, AliasFeeders { check, group });
    valves.reshape(group, 1, false);
    valves.set_count(group, sets);
}

/// The seat in a slot tells the valve of its set's group, given as one more, and of the set what it told.
fn put_group(seats: &mut Vec<Seat>, slot: u32, told: u32)
    requires { slot < length seats.old.items }
    ensures sets { (other : ℕ) → TellsOn seats.old.items seats.new.items other }
    ensures group { group_seat seats.new.items slot ≡ told }
    ensures others { (other : ℕ) → (other ≡ slot → ⊥)
        → group_seat seats.new.items other ≡ group_seat seats.old.items other }
    ensures size { length seats.new.items ≡ length seats.old.items }
    ensures room { vec_capacity seats.new ≡ vec_capacity seats.old }
{
    let seat = find_seat(seats, slot);
    seats[slot as usize] = Seat {
        set: seat.set,
        group: told,
        check: seat.check,
    };
}

/// Seats the sets of a group at its valve, which is given as one more.
fn seat_those(zones: &Zones, group: Group, told: u32, seats: &mut Vec<Seat>)
    requires group { IsGroupNow zones.now.zones group }
    requires slots { zones.now.slots ≤ length seats.old.items }
    ensures seated { AreGroupedAt (members_of zones.now.zones group) told seats.old.items seats.new.items }
    ensures size { length seats.new.items ≡ length seats.old.items }
    ensures room { vec_capacity seats.new ≡ vec_capacity seats.old }
{
    zones.slots_within();
    for i in 0..group.length {
        put_group(seats, zones.member(group, i).slot, told);
    }
}

/// Seats the sets of a group at its valve, which is given as one more, and the set in another slot at the valve
/// behind that. Slots may be behind all seats.
pub fn seat_first(zones: &Zones, group: Group, slot: u32, told: u32, seats: &mut Vec<Seat>)
    requires group { IsGroupNow zones.now.zones group }
    requires slot { slot < zones.now.slots }
    requires told { told < 2 ^ 32 - 1 }
    requires room { zones.now.slots ≤ vec_capacity seats.old }
    ensures seated { AreSeatedOwned slot (members_of zones.now.zones group) told seats.old.items seats.new.items }
    ensures room { vec_capacity seats.new ≡ vec_capacity seats.old }
{
    grow_seats(seats, zones.slots());
    seat_those(zones, group, told, seats);
    put_own(seats, slot, told + 1);
}

/// Notes the sets of a group. It takes no memory.
pub fn note_those(zones: &Zones, group: Group, members: &mut Vec<SetRef>)
    requires group { IsGroupNow zones.now.zones group }
    requires room { length members.old.items + group.length ≤ vec_capacity members.old }
    ensures noted { members.new.items
        ≡ members.old.items ++ refs_of group.zone (members_of zones.now.zones group) }
    ensures room { vec_capacity members.new ≡ vec_capacity members.old }
{
    for i in 0..group.length {
        members.push_reserved(zones.member(group, i));
    }
}
