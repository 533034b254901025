//! Aliases whose target's health counts, in the place of others that the same valves fed: that of the check
//! that they name, and that of their target group.

ghost use Rattle.std.specs.Prelude.{◌≡◌, ◌<◌, ◌+◌, ◌↔◌, ℕ, IsTrue, List, Option, length, slice_get, suc, true};
ghost use Rattle.std.specs.Option.{option_to_list};
ghost use Rattle.health_standing.specs.Index.{Needs};
ghost use Rattle.health_standing.specs.Leaving.{IsAsFed, IsFedByCheck, IsFedByTarget};
ghost use Rattle.health_planning.specs.Looking.{RefersTo};
ghost use Rattle.health_planning.specs.Telling.{evaluates, watch_of};
ghost use Rattle.health_planning.specs.Wired.{StandApart, group_seat, seat_of, set_seat};
ghost use Rattle.health_valves.specs.Valves.{IsReady, size_of};
ghost use Rattle.record_set.specs.declared.sets.RecordSet.{RecordSet};

use crate::finding::find_seat;
use health_planning::{Seat, SetRef, Watch, Zones, find_group, number_at, own_valve, place_near};
use health_valves::Valves;

/// Whether the valve of a check feeds another, or none is named.
fn check_feeds(
    ids: &[u32],
    numbers: &[u32],
    valves: &Valves,
    check: Option<u32>,
    valve: u32,
) -> bool
    requires ready { IsReady valves.now }
    requires valve { valve < size_of valves.now }
    requires apart { StandApart ids.now }
    requires as_many { length numbers.now ≡ length ids.now }
    ensures { IsTrue result ↔ IsFedByCheck ids.now numbers.now valves.now check valve }
{
    let Some(id) = check else {
        return true;
    };
    let Some(place) = place_near(ids, id) else {
        return false;
    };
    valves.feeds(number_at(numbers, place) as usize, valve)
}

/// Whether the valve of the target group of an alias feeds another.
fn target_feeds(zones: &Zones, seats: &[Seat], valves: &Valves, set: SetRef, valve: u32) -> bool
    requires ready { IsReady valves.now }
    requires valve { valve < size_of valves.now }
    ensures { (named : RecordSet) → RefersTo zones.now.zones set named → IsTrue result
        ↔ IsFedByTarget zones.now.zones seats.now valves.now set.zone named valve }
{
    zones.well_formed();
    let Some(target) = zones.target(set) else {
        return false;
    };
    let group = find_group(zones, set.zone, &target.0, target.1);
    if group.length == 0 {
        return false;
    }
    let seat = find_seat(seats, zones.member(group, 0).slot).group;
    if seat == 0 {
        return false;
    }
    valves.feeds((seat - 1) as usize, valve)
}

/// Whether a set is an alias whose target's health counts, and what feeds the valve that the seat in its
/// slot tells is what has to.
pub fn is_fed_alike(
    zones: &Zones,
    ids: &[u32],
    numbers: &[u32],
    seats: &[Seat],
    valves: &Valves,
    set: SetRef,
    watch: Watch,
) -> bool
    requires ready { IsReady valves.now }
    requires apart { StandApart ids.now }
    requires as_many { length numbers.now ≡ length ids.now }
    requires seated { (slot valve : ℕ) → set_seat seats.now slot ≡ suc valve
        → valve < size_of valves.now }
    ensures { (named : RecordSet) → RefersTo zones.now.zones set named → watch ≡ watch_of named
        → IsTrue result ↔ IsAsFed zones.now.zones ids.now numbers.now seats.now valves.now
        set.zone set.slot named }
{
    if !watch.evaluates {
        return false;
    }
    let seat = own_valve(find_seat(seats, set.slot).set);
    if seat == 0 {
        return false;
    }
    let valve = seat - 1;
    if valves.need(valve as usize) != feeders_count(watch) {
        return false;
    }
    if !check_feeds(ids, numbers, valves, watch.check, valve) {
        return false;
    }
    target_feeds(zones, seats, valves, set, valve)
}

/// How many valves feed that of an alias whose target's health counts.
fn feeders_count(watch: Watch) -> u32
    ensures { result ≡ length (option_to_list watch.check) + 1 }
{
    match watch.check {
        Some(_) => 2,
        None => 1,
    }
}
