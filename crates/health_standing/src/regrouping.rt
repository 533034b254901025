//! Commands by which one set that nothing decides comes into a group to which an evaluated alias leads, or
//! goes from one: the group's valve counts one more, or one fewer.

ghost use Rattle.std.specs.Prelude.{◌≡◌, ◌≤◌, ◌<◌, ◌+◌, ◌-◌, ℕ, Some, length, vec_capacity};
ghost use Rattle.health_standing.specs.Regrouping.{IsCome, IsGone, IsSeatedIn, JoinsGroup, LeavesGroup};
ghost use Rattle.health_standing.specs.Regrouping.{IsToldFor, IsToldIn, TellNoOther};
ghost use Rattle.health_planning.specs.Groups.{members_of};
ghost use Rattle.health_planning.specs.Looking.{IsGroupNow, RefersTo};
ghost use Rattle.health_valves.specs.Valves.{IsReady};
ghost use Rattle.record_set.specs.declared.sets.RecordSet.{RecordSet};

use crate::finding::find_seat;
use health_planning::{
    Delta, Group, Scratch, Seat, SetRef, Zones, find_group, grow_seats, is_watched,
};
use health_valves::Valves;

/// The most that is counted from outside at a valve.
const MOST_COUNTED: u32 = 1 << 31;

/// The set that went by a command, where one went and none came.
pub fn one_gone(delta: &Delta) -> Option<SetRef>
    ensures { IsGone delta.now result }
{
    if delta.zone == 0 {
        return None;
    }
    if delta.added.as_slice().len() != 0 {
        return None;
    }
    if delta.removed.as_slice().len() != 1 {
        return None;
    }
    Some(delta.removed.as_slice()[0])
}

/// The set that came by a command, where one came and none went.
pub fn one_come(delta: &Delta) -> Option<SetRef>
    ensures { IsCome delta.now result }
{
    if delta.zone == 0 {
        return None;
    }
    if delta.removed.as_slice().len() != 0 {
        return None;
    }
    if delta.added.as_slice().len() != 1 {
        return None;
    }
    Some(delta.added.as_slice()[0])
}

/// The valve at which a set was counted that isn't there any more.
pub fn group_left(zones: &Zones, seats: &[Seat], valves: &Valves, set: SetRef) -> Option<u32>
    requires ready { IsReady valves.now }
    ensures found { (valve : ℕ) → result ≡ Some valve
        → LeavesGroup zones.now.zones seats.now valves.now set valve }
    ensures all { (valve : ℕ) → LeavesGroup zones.now.zones seats.now valves.now set valve
        → result ≡ Some valve }
{
    if zones.watch(set).is_some() {
        return None;
    }
    let seat = find_seat(seats, set.slot);
    if seat.set != 0 {
        return None;
    }
    if seat.group == 0 {
        return None;
    }
    let valve = seat.group - 1;
    if valve as usize >= valves.len() {
        return None;
    }
    if valves.own(valve as usize) == 0 {
        return None;
    }
    Some(valve)
}

/// The valve that the sets of a group tell for it, the first that one of them does, given as one more; 0 where
/// none tells any.
fn told_in(zones: &Zones, seats: &[Seat], group: Group) -> u32
    requires { IsGroupNow zones.now.zones group }
    ensures { IsToldIn seats.now (members_of zones.now.zones group) result }
{
    for i in 0..group.length {
        let told = find_seat(seats, zones.member(group, i).slot).group;
        if told != 0 {
            return told;
        }
    }
    0
}

/// The same of the group of the set that a reference names, which is read into the scratch.
fn told_for(zones: &Zones, seats: &[Seat], set: SetRef, scratch: &mut Scratch) -> u32
    requires { (named : RecordSet) × RefersTo zones.now.zones set named }
    ensures { (named : RecordSet) → RefersTo zones.now.zones set named
        → IsToldFor zones.now.zones seats.now set.zone named.name named.rtype result }
{
    zones.well_formed();
    if !zones.load(set, scratch) {
        unreachable!();
    }
    let group = find_group(zones, set.zone, &scratch.name(), scratch.rtype());
    told_in(zones, seats, group)
}

/// The valve at which a set is to be counted that came, given as one more.
pub fn group_joined(
    zones: &Zones,
    seats: &[Seat],
    valves: &Valves,
    set: SetRef,
    scratch: &mut Scratch,
) -> Option<u32>
    requires ready { IsReady valves.now }
    ensures found { (told : ℕ) → result ≡ Some told
        → (1 ≤ told) × JoinsGroup zones.now.zones seats.now valves.now set (told - 1) }
    ensures all { (valve : ℕ) (named : RecordSet)
        → JoinsGroup zones.now.zones seats.now valves.now set valve
        → RefersTo zones.now.zones set named
        → TellNoOther zones.now.zones seats.now set.zone named.name named.rtype valve
        → result ≡ Some (valve + 1) }
{
    zones.well_formed();
    let Some(watch) = zones.watch(set) else {
        return None;
    };
    if is_watched(watch) {
        return None;
    }
    let seat = find_seat(seats, set.slot);
    if seat.set != 0 {
        return None;
    }
    if seat.group != 0 {
        return None;
    }
    let told = told_for(zones, seats, set, scratch);
    if told == 0 {
        return None;
    }
    let valve = told - 1;
    if valve as usize >= valves.len() {
        return None;
    }
    if valves.own(valve as usize) >= MOST_COUNTED {
        return None;
    }
    Some(told)
}

/// Another seat in a slot: one that tells the valve of a group alone, given as one more, or none.
pub fn put_seat(seats: &mut Vec<Seat>, slot: u32, group: u32)
    requires { slot < length seats.old.items }
    ensures seated { IsSeatedIn slot group seats.old.items seats.new.items }
    ensures size { length seats.new.items ≡ length seats.old.items }
    ensures room { vec_capacity seats.new ≡ vec_capacity seats.old }
{
    seats[slot as usize] = Seat {
        set: 0,
        group,
        check: 0,
    };
}

/// The same in a slot of zones, which may be behind all seats.
pub fn seat_in(zones: &Zones, seats: &mut Vec<Seat>, slot: u32, group: u32)
    requires room { zones.now.slots ≤ vec_capacity seats.old }
    requires slot { slot < zones.now.slots }
    ensures seated { IsSeatedIn slot group seats.old.items seats.new.items }
    ensures room { vec_capacity seats.new ≡ vec_capacity seats.old }
{
    grow_seats(seats, zones.slots());
    put_seat(seats, slot, group);
}
