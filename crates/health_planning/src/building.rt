//! The valves of checks and what feeds them, what their checkers saw, and seats before any set has a
//! valve.
//!
//! Seats are cleared only where they were given: a store has many slots, and few of them have valves.

ghost use Rattle.std.specs.Prelude.{◌≡◌, ◌≢◌, ◌≤◌, ◌<◌, ◌+◌, ◌++◌, ◌∷◌, [], ℕ, List, None, Some, length};
ghost use Rattle.std.specs.Prelude.{is_some, map, slice_get, true, vec_capacity, vec_len};
ghost use Rattle.check_model.specs.declared.checks.Check.{Check};
ghost use Rattle.check_model.specs.Checks.{Checks, IsBounded, children_of};
ghost use Rattle.checker_state.specs.Standing.{Seen, nothing};
ghost use Rattle.checker_state.specs.Standing.{StandsFor as HasSeen};
ghost use Rattle.health_valves.specs.Blueprint.{KeepsRoom};
ghost use Rattle.health_valves.specs.declared.blueprint.Trigger.{Trigger};
ghost use Rattle.health_planning.specs.Building.{AreSeen, AreThere, AreTriggered, check_links};
ghost use Rattle.health_planning.specs.Building.{AreFree, AreGiven, AreOfEndpoints, IsBare, IsFree};
ghost use Rattle.health_planning.specs.Building.{KeepsCheck, TellSlot, TellsAll, check_trigger, links_to};
ghost use Rattle.health_planning.specs.Building.{spare_trigger};
ghost use Rattle.health_planning.specs.Later.{EachIsLater, IsLaterAt, Knows};
ghost use Rattle.health_planning.specs.Building.{IsSeen};
ghost use Rattle.health_planning.specs.Rooms.{children_among};
ghost use Rattle.health_planning.specs.Wired.{HaveValves, IsSpare, StandApart, StandsAt, check_need};
ghost use Rattle.health_planning.specs.Wired.{check_own, ids_of, is_inverted, own_part, valve_with};
ghost use Rattle.health_model.specs.Statuses.{Report, passing};

use crate::finding::{number_at, place_from, seen_at, valve_with};
use crate::seats::{Seat, own_valve, seat_at};
use checker_state::Checkers;
use health_check::Check;
use health_valves::{Blueprint, Feeding, Trigger};
use policy_select::SetRef;

/// The most checks. Their valves are among the first, so many, and those of sets come behind.
pub const MOST_CHECKS: usize = 200;

/// The numbers of checks.
pub fn list_ids(ids: &mut Vec<u32>, list: &[(u32, Check)])
    requires empty { ids.old.items ≡ [] }
    requires room { length list.now ≤ vec_capacity ids.old }
    ensures ids { ids.new.items ≡ ids_of list.now }
    ensures room { vec_capacity ids.new ≡ vec_capacity ids.old }
{
    for held in list {
        ids.push_reserved(held.0);
    }
}

/// How many open the valve of a check.
pub fn need_of(check: &Check) -> u32
    ensures { result ≡ check_need check.now }
{
    match check {
        Check::Endpoint { disabled, .. } => { if *disabled { 0 } else { 10 } }
        Check::Calculated {
            threshold,
            disabled,
            ..
        } => { if *disabled { 0 } else { u32::from(*threshold) } }
    }
}

/// How many passing checkers are counted at the valve of a check.
fn own_of(check: &Check, seen: Option<Checkers>) -> u32
    ensures exact { (reports : List Report) (id : ℕ) → IsSeen reports id check.now seen
        → result ≡ check_own check.now (passing reports id) }
    ensures small { result ≤ 255 }
{
    let Check::Endpoint { .. } = check else {
        return 0;
    };
    match seen {
        Some(checkers) => u32::from(checkers.passing()),
        None => 0,
    }
}

/// Whether a check is inverted.
pub fn inverted_of(check: &Check) -> bool
    ensures { result ≡ is_inverted check.now }
{
    match check {
        Check::Endpoint { inverted, .. } => *inverted,
        Check::Calculated { inverted, .. } => *inverted,
    }
}

/// What opens the valve of a check.
fn trigger_of(check: &Check, seen: Option<Checkers>) -> Trigger
    ensures exact { (reports : List Report) (id : ℕ) → IsSeen reports id check.now seen
        → result ≡ check_trigger reports id check.now }
    ensures small { result.own ≤ 255 }
{
    Trigger {
        need: need_of(check),
        inverted: inverted_of(check),
        own: own_of(check, seen),
    }
}

/// Spare valves, as many as there can be checks.
pub fn add_spares(blueprint: &mut Blueprint)
    requires empty { blueprint.old.triggers ≡ [] }
    requires room { 200 ≤ blueprint.old.room }
    ensures size { length blueprint.new.triggers ≡ 200 }
    ensures spares { (n : ℕ) → n < 200 → slice_get blueprint.new.triggers n ≡ Some spare_trigger }
    ensures links { blueprint.new.links ≡ blueprint.old.links }
    ensures kept { KeepsRoom blueprint.old blueprint.new }
{
    for _place in 0..MOST_CHECKS {
        blueprint.push(Trigger {
            need: 0,
            inverted: false,
            own: 0,
        });
    }
}

/// The valves of checks in place of spare ones, by what their checkers saw.
pub fn put_checks(
    blueprint: &mut Blueprint,
    list: &[(u32, Check)],
    numbers: &[u32],
    seen: &[Option<Checkers>],
)
    requires size { length blueprint.old.triggers ≡ 200 }
    requires as_many { length seen.now ≡ length list.now }
    requires valves { HaveValves (length list.now) numbers.now }
    ensures checks { (reports : List Report) → AreSeen reports list.now seen.now
        → AreTriggered reports list.now numbers.now blueprint.new.triggers }
    ensures spares { (valve : ℕ) → IsSpare numbers.now valve
        → slice_get blueprint.new.triggers valve ≡ slice_get blueprint.old.triggers valve }
    ensures small { ((n : ℕ) (trigger : Trigger) → slice_get blueprint.old.triggers n ≡ Some trigger
        → trigger.own ≤ 255)
        → (n : ℕ) (trigger : Trigger) → slice_get blueprint.new.triggers n ≡ Some trigger
        → trigger.own ≤ 255 }
    ensures size { length blueprint.new.triggers ≡ 200 }
    ensures links { blueprint.new.links ≡ blueprint.old.links }
    ensures kept { KeepsRoom blueprint.old blueprint.new }
{
    for (place, held) in list.iter().enumerate() {
        let trigger = trigger_of(&held.1, seen_at(seen, place));
        blueprint.put(number_at(numbers, place), trigger);
    }
}

/// What feeds the valve of a calculated check: those of its children.
fn join_children(
    blueprint: &mut Blueprint,
    ids: &[u32],
    numbers: &[u32],
    children: &[u32],
    valve: u32,
)
    requires there { AreThere ids.now children.now }
    requires apart { StandApart ids.now }
    requires as_many { length numbers.now ≡ length ids.now }
    requires room { length children.now ≤ blueprint.old.links_room }
    ensures triggers { blueprint.new.triggers ≡ blueprint.old.triggers }
    ensures links { blueprint.new.links
        ≡ blueprint.old.links
        ++ links_to valve (map (valve_with ids.now numbers.now) children.now) }
    ensures kept { KeepsRoom blueprint.old blueprint.new }
    ensures room { blueprint.old.links_room ≡ blueprint.new.links_room + length children.now }
{
    for child in children {
        let Some(feeder) = valve_with(ids, numbers, *child) else {
            unreachable!();
        };
        let link = Feeding { feeder, fed: valve };
        blueprint.feed(link);
    }
}

/// What feeds the valves of checks.
pub fn join_checks(blueprint: &mut Blueprint, ids: &[u32], numbers: &[u32], list: &[(u32, Check)])
    requires there { (place id : ℕ) (check : Check) → slice_get list.now place ≡ Some (id, check)
        → AreThere ids.now (children_of check) }
    requires apart { StandApart ids.now }
    requires as_many { length numbers.now ≡ length ids.now }
    requires all { length list.now ≤ length numbers.now }
    requires room { children_among list.now ≤ blueprint.old.links_room }
    ensures triggers { blueprint.new.triggers ≡ blueprint.old.triggers }
    ensures links { blueprint.new.links
        ≡ blueprint.old.links ++ check_links ids.now numbers.now 0 list.now }
    ensures kept { KeepsRoom blueprint.old blueprint.new }
{
    for (place, held) in list.iter().enumerate() {
        match &held.1 {
            Check::Endpoint { .. } => {}
            Check::Calculated { children, .. } => {
                let children = children.as_slice();
                join_children(blueprint, ids, numbers, children, number_at(numbers, place));
            }
        }
    }
}

/// What the checkers of an endpoint saw, whose check stood at a place: nothing yet, where it wasn't
/// there.
fn checkers_of(seen: &[Option<Checkers>], at: Option<usize>, threshold: u8) -> Checkers
    requires within { (place : ℕ) → at ≡ Some place → place < length seen.now }
    requires low { 1 ≤ threshold }
    requires high { threshold ≤ 10 }
    ensures kept { (place : ℕ) (its : Seen) → at ≡ Some place
        → slice_get seen.now place ≡ Some (Some its) → result ≡ its }
    ensures new { at ≡ None → HasSeen threshold nothing result }
{
    let Some(place) = at else {
        return Checkers::new(threshold);
    };
    match seen[place] {
        Some(checkers) => checkers,
        None => Checkers::new(threshold),
    }
}

/// What the checkers of a check saw, which stood at a place.
fn seen_of(seen: &[Option<Checkers>], at: Option<usize>, check: &Check) -> Option<Checkers>
    requires within { (place : ℕ) → at ≡ Some place → place < length seen.now }
    requires bounded { IsBounded check.now }
    ensures exact { (old : Checks) (reports : List Report) (ids : List ℕ) (id : ℕ)
        → Knows old reports ids seen.now → StandsAt ids id at
        → IsLaterAt old id check.now → IsSeen reports id check.now result }
    ensures kind { is_some result ≡ true → children_of check.now ≡ [] }
{
    match check {
        Check::Endpoint { threshold, .. } => Some(checkers_of(seen, at, *threshold)),
        Check::Calculated { .. } => None,
    }
}

/// The place behind one that was found, and else the place before.
fn place_behind(at: Option<usize>, from: usize) -> usize {
    match at {
        Some(place) => place.saturating_add(1),
        None => from,
    }
}

/// What the checkers of each check saw, from what they saw of the checks before.
///
/// Numbers rise in both lists: so each is looked for from behind the one that was found last.
pub fn list_seen(
    into: &mut Vec<Option<Checkers>>,
    list: &[(u32, Check)],
    ids: &[u32],
    seen: &[Option<Checkers>],
)
    requires empty { into.old.items ≡ [] }
    requires room { length list.now ≤ vec_capacity into.old }
    requires as_many { length seen.now ≡ length ids.now }
    requires bounded { (place id : ℕ) (check : Check) → slice_get list.now place ≡ Some (id, check)
        → IsBounded check }
    ensures size { length into.new.items ≡ length list.now }
    ensures seen { (old : Checks) (reports : List Report)
        → Knows old reports ids.now seen.now → EachIsLater old list.now
        → AreSeen reports list.now into.new.items }
    ensures kinds { AreOfEndpoints list.now into.new.items }
    ensures room { vec_capacity into.new ≡ vec_capacity into.old }
{
    let mut from = 0;
    for (place, held) in list.iter().enumerate() {
        let at = place_from(ids, held.0, from);
        let saw = seen_of(seen, at, &held.1);
        into.push_reserved(saw);
        from = place_behind(at, from);
    }
}

/// A seat without a valve of the set's own, and without one of its group. What it tells of a check that
/// alone decides the set stays.
fn without_valves(seat: Seat) -> Seat
    ensures group { result.group ≡ 0 }
    ensures own { own_part result.set ≡ 0 }
    ensures check { (own_part seat.set ≡ 0 → (result.set ≡ seat.set) × (result.check ≡ seat.check))
        × (own_part seat.set ≢ 0 → result.set ≡ 0) }
{
    if own_valve(seat.set) != 0 {
        return Seat {
            set: 0,
            group: 0,
            check: 0,
        };
    }
    Seat {
        set: seat.set,
        group: 0,
        check: seat.check,
    }
}

/// Clears what the seat in a slot tells of valves but one of a check, where there is a seat.
fn clear_one(seats: &mut Vec<Seat>, slot: u32)
    ensures here { IsFree seats.new.items slot }
    ensures free { (other : ℕ) → IsFree seats.old.items other → IsFree seats.new.items other }
    ensures checks { (other : ℕ) → KeepsCheck seats.old.items seats.new.items other }
    ensures size { length seats.new.items ≡ length seats.old.items }
    ensures room { vec_capacity seats.new ≡ vec_capacity seats.old }
{
    let at = slot as usize;
    if at >= seats.len() {
        return;
    }
    let cleared = without_valves(seat_at(seats, slot));
    seats[at] = cleared;
}

/// Clears the seats of some sets but for what they tell of checks.
fn clear_those(seats: &mut Vec<Seat>, those: &[SetRef])
    ensures cleared { (slot : ℕ) → TellSlot those.now slot → IsFree seats.new.items slot }
    ensures free { (slot : ℕ) → IsFree seats.old.items slot → IsFree seats.new.items slot }
    ensures checks { (slot : ℕ) → KeepsCheck seats.old.items seats.new.items slot }
    ensures size { length seats.new.items ≡ length seats.old.items }
    ensures room { vec_capacity seats.new ≡ vec_capacity seats.old }
{
    for set in those {
        clear_one(seats, set.slot);
    }
}

/// At least as many seats as there are slots: those that come tell nothing.
pub fn grow_seats(seats: &mut Vec<Seat>, slots: usize)
    requires room { slots ≤ vec_capacity seats.old }
    ensures all { (slot : ℕ) → TellsAll seats.old.items seats.new.items slot }
    ensures least { slots ≤ length seats.new.items }
    ensures few { length seats.old.items ≤ slots → length seats.new.items ≡ slots }
    ensures room { vec_capacity seats.new ≡ vec_capacity seats.old }
{
    for _i in seats.len()..slots {
        seats.push_reserved(Seat {
            set: 0,
            group: 0,
            check: 0,
        });
    }
}

/// As many seats as there are slots: what those tell that stay is as before, and the others tell nothing.
pub fn fit_seats(seats: &mut Vec<Seat>, slots: usize)
    requires room { slots ≤ vec_capacity seats.old }
    ensures size { length seats.new.items ≡ slots }
    ensures front { (slot : ℕ) → slot < slots → TellsAll seats.old.items seats.new.items slot }
    ensures past { (slot : ℕ) → slots ≤ slot → IsBare seats.new.items slot }
    ensures room { vec_capacity seats.new ≡ vec_capacity seats.old }
{
    seats.truncate(slots);
    grow_seats(seats, slots);
}

/// Seats without valves but those of checks, one for each slot: those that tell others are cleared, which are
/// in the slots of the listed sets and of the noted members.
pub fn clear_seats(seats: &mut Vec<Seat>, refs: &[SetRef], members: &[SetRef], slots: usize)
    requires given { AreGiven refs.now members.now seats.old.items }
    requires room { slots ≤ vec_capacity seats.old }
    ensures free { AreFree slots seats.new.items }
    ensures checks { (slot : ℕ) → slot < slots → KeepsCheck seats.old.items seats.new.items slot }
    ensures room { vec_capacity seats.new ≡ vec_capacity seats.old }
{
    clear_those(seats, refs);
    clear_those(seats, members);
    fit_seats(seats, slots);
}
