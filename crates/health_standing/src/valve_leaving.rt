//! Commands by which surely no valve changes: sets give way to others that the same check alone decides, or
//! nothing, or the same check and the same target group, or sets that nothing decides go and come where no
//! valve is.

ghost use Rattle.std.specs.Prelude.{◌≡◌, ◌≢◌, ◌<◌, ◌↔◌, [], ℕ, IsTrue, List, false, length, suc};
ghost use Rattle.health_standing.specs.Leaving.{AllCameKeepValves, AllWentKeepValves};
ghost use Rattle.health_standing.specs.Leaving.{CameKeepsValves, HasNoValve, IsAsSeated, IsAsTold, IsOneOf};
ghost use Rattle.health_standing.specs.Leaving.{AllCameBeside, AllWentBeside, CameBeside, KeepsValves};
ghost use Rattle.health_standing.specs.Leaving.{SparesValves, WentKeepsValves};
ghost use Rattle.health_planning.specs.Building.{IsFree, IsSeatAt};
ghost use Rattle.health_planning.specs.Wired.{StandApart, group_seat, set_seat};
ghost use Rattle.health_valves.specs.Valves.{IsReady, size_of};
ghost use Rattle.health_planning.specs.declared.seats.Seat.{Seat};
ghost use Rattle.health_planning.specs.Groups.{members_of};
ghost use Rattle.record_set.specs.declared.sets.RecordSet.{RecordSet};
ghost use Rattle.health_planning.specs.Telling.{evaluates, watch_of};
ghost use Rattle.zone_model.specs.Slotted.{IsHere, Slotted};
ghost use Rattle.health_planning.specs.Looking.{IsGroupNow, RefersTo};

use crate::fed_alike::is_fed_alike;
use crate::finding::find_seat;
use health_planning::{
    Delta, Group, Scratch, Seat, SetRef, Watch, Zones, find_group, is_watched, only_check,
    own_valve,
};
use health_valves::Valves;

/// Whether one of some references is this one.
fn is_one_of(refs: &[SetRef], set: SetRef) -> bool
    ensures { IsTrue result ↔ IsOneOf refs.now set }
{
    for other in refs {
        if other.zone == set.zone && other.slot == set.slot {
            return true;
        }
    }
    false
}

/// Whether another set came in the place of one that went, or neither that nor its group had a valve.
fn went_leaves_valves(seats: &[Seat], set: SetRef, added: &[SetRef]) -> bool
    ensures { IsTrue result ↔ WentKeepsValves seats.now added.now set }
{
    let seat = find_seat(seats, set.slot);
    if seat.set == 0 && seat.group == 0 {
        return true;
    }
    is_one_of(added, set)
}

/// Whether no valve changes by the sets that went.
fn all_went_leave_valves(seats: &[Seat], removed: &[SetRef], added: &[SetRef]) -> bool
    ensures { IsTrue result ↔ AllWentKeepValves seats.now added.now removed.now }
{
    for set in removed {
        if !went_leaves_valves(seats, *set, added) {
            return false;
        }
    }
    true
}

/// Whether no set of a group tells a valve of it.
fn tells_none(zones: &Zones, seats: &[Seat], group: Group) -> bool
    requires { IsGroupNow zones.now.zones group }
    ensures { IsTrue result ↔ ((p : Slotted) → IsHere (members_of zones.now.zones group) p
        → group_seat seats.now p.slot ≡ 0) }
{
    for i in 0..group.length {
        if find_seat(seats, zones.member(group, i).slot).group != 0 {
            return false;
        }
    }
    true
}

/// Whether the group of the set that a reference names has no valve. That set is read into the
/// scratch.
pub(crate) fn has_no_valve(
    zones: &Zones,
    seats: &[Seat],
    set: SetRef,
    scratch: &mut Scratch,
) -> bool
    requires { (named : RecordSet) × RefersTo zones.now.zones set named }
    ensures { (named : RecordSet) → RefersTo zones.now.zones set named → IsTrue result
        ↔ HasNoValve zones.now.zones seats.now set.zone named.name named.rtype }
{
    zones.well_formed();
    if !zones.load(set, scratch) {
        unreachable!();
    }
    let group = find_group(zones, set.zone, &scratch.name(), scratch.rtype());
    tells_none(zones, seats, group)
}

/// Whether what decides a set is what a seat tells: nothing, or the same check alone.
fn is_as_told(seat: Seat, watch: Watch) -> bool
    ensures { (seats : List Seat) (slot : ℕ) (named : RecordSet) → IsSeatAt seats slot seat
        → watch ≡ watch_of named → IsTrue result ↔ IsAsTold seats slot named }
{
    if seat.set == 0 {
        return !is_watched(watch);
    }
    let check = only_check(watch);
    check != 0 && seat.check == check
}

/// Whether what decides the set that a reference names is what decided the one that was in its slot.
fn is_as_seated(
    zones: &Zones,
    ids: &[u32],
    numbers: &[u32],
    seats: &[Seat],
    valves: &Valves,
    set: SetRef,
) -> bool
    requires ready { IsReady valves.now }
    requires apart { StandApart ids.now }
    requires as_many { length numbers.now ≡ length ids.now }
    requires seated { (slot valve : ℕ) → set_seat seats.now slot ≡ suc valve
        → valve < size_of valves.now }
    ensures { IsTrue result ↔ ((named : RecordSet) × RefersTo zones.now.zones set named
        × IsAsSeated zones.now.zones ids.now numbers.now seats.now valves.now set named) }
{
    zones.well_formed();
    let Some(watch) = zones.watch(set) else {
        return false;
    };
    is_as_told(find_seat(seats, set.slot), watch)
        || is_fed_alike(zones, ids, numbers, seats, valves, set, watch)
}

/// Whether a set came in the place of another, or into a slot and a group without a valve, and what
/// decides it is what decided that.
fn came_leaves_valves(
    zones: &Zones,
    ids: &[u32],
    numbers: &[u32],
    seats: &[Seat],
    valves: &Valves,
    set: SetRef,
    removed: &[SetRef],
    scratch: &mut Scratch,
) -> bool
    requires ready { IsReady valves.now }
    requires apart { StandApart ids.now }
    requires as_many { length numbers.now ≡ length ids.now }
    requires seated { (slot valve : ℕ) → set_seat seats.now slot ≡ suc valve
        → valve < size_of valves.now }
    ensures { IsTrue result ↔ CameKeepsValves zones.now.zones ids.now numbers.now seats.now valves.now
        removed.now set }
{
    zones.well_formed();
    if !is_as_seated(zones, ids, numbers, seats, valves, set) {
        return false;
    }
    if is_one_of(removed, set) {
        return true;
    }
    if find_seat(seats, set.slot).set != 0 {
        return false;
    }
    has_no_valve(zones, seats, set, scratch)
}

/// Whether no valve changes by the sets that came.
fn all_came_leave_valves(
    zones: &Zones,
    ids: &[u32],
    numbers: &[u32],
    seats: &[Seat],
    valves: &Valves,
    removed: &[SetRef],
    added: &[SetRef],
    scratch: &mut Scratch,
) -> bool
    requires ready { IsReady valves.now }
    requires apart { StandApart ids.now }
    requires as_many { length numbers.now ≡ length ids.now }
    requires seated { (slot valve : ℕ) → set_seat seats.now slot ≡ suc valve
        → valve < size_of valves.now }
    ensures { IsTrue result ↔ AllCameKeepValves zones.now.zones ids.now numbers.now seats.now valves.now
        removed.now added.now }
{
    for set in added {
        if !came_leaves_valves(zones, ids, numbers, seats, valves, *set, removed, scratch) {
            return false;
        }
    }
    true
}

/// Whether no valve changes by the sets that went from a zone, and by those that came.
pub fn leaves_valves(
    zones: &Zones,
    ids: &[u32],
    numbers: &[u32],
    seats: &[Seat],
    valves: &Valves,
    delta: &Delta,
    scratch: &mut Scratch,
) -> bool
    requires ready { IsReady valves.now }
    requires apart { StandApart ids.now }
    requires as_many { length numbers.now ≡ length ids.now }
    requires seated { (slot valve : ℕ) → set_seat seats.now slot ≡ suc valve
        → valve < size_of valves.now }
    ensures { IsTrue result ↔ KeepsValves zones.now.zones ids.now numbers.now seats.now valves.now
        delta.now }
{
    if delta.zone == 0 {
        return false;
    }
    let removed = delta.removed.as_slice();
    let added = delta.added.as_slice();
    if !all_went_leave_valves(seats, removed, added) {
        return false;
    }
    all_came_leave_valves(zones, ids, numbers, seats, valves, removed, added, scratch)
}

/// The sets that went by a command, where it tells of a zone.
pub fn gone_by(delta: &Delta) -> &[SetRef]
    ensures none { delta.now.zone ≡ 0 → result.now ≡ [] }
    ensures told { delta.now.zone ≢ 0 → result.now ≡ delta.now.removed }
{
    if delta.zone == 0 {
        return &[];
    }
    delta.removed.as_slice()
}

/// Whether a slot has no valve of its own, and its group has none.
fn is_free(seats: &[Seat], slot: u32) -> bool
    ensures { IsTrue result ↔ IsFree seats.now slot }
{
    let seat = find_seat(seats, slot);
    own_valve(seat.set) == 0 && seat.group == 0
}

/// Whether all sets that went went from such slots.
fn all_went_beside(seats: &[Seat], removed: &[SetRef]) -> bool
    ensures { IsTrue result ↔ AllWentBeside seats.now removed.now }
{
    for set in removed {
        if !is_free(seats, set.slot) {
            return false;
        }
    }
    true
}

/// Whether a reference names a set that is no evaluated alias.
fn is_off(zones: &Zones, set: SetRef) -> bool
    ensures { IsTrue result ↔ ((named : RecordSet) × RefersTo zones.now.zones set named
        × (evaluates named.body ≡ false)) }
{
    zones.well_formed();
    match zones.watch(set) {
        Some(watch) => !watch.evaluates,
        None => false,
    }
}

/// Whether a set came that is no evaluated alias, into a slot and a group without a valve of their own.
fn came_beside(zones: &Zones, seats: &[Seat], set: SetRef, scratch: &mut Scratch) -> bool
    ensures { IsTrue result ↔ CameBeside zones.now.zones seats.now set }
{
    zones.well_formed();
    if !is_off(zones, set) {
        return false;
    }
    if own_valve(find_seat(seats, set.slot).set) != 0 {
        return false;
    }
    has_no_valve(zones, seats, set, scratch)
}

/// Whether all sets that came did so.
fn all_came_beside(zones: &Zones, seats: &[Seat], added: &[SetRef], scratch: &mut Scratch) -> bool
    ensures { IsTrue result ↔ AllCameBeside zones.now.zones seats.now added.now }
{
    for set in added {
        if !came_beside(zones, seats, *set, scratch) {
            return false;
        }
    }
    true
}

/// Whether no valve changes by the sets that went from a zone and by those that came, but which checks alone
/// decide some sets may.
pub fn spares_valves(zones: &Zones, seats: &[Seat], delta: &Delta, scratch: &mut Scratch) -> bool
    ensures { IsTrue result ↔ SparesValves zones.now.zones seats.now delta.now }
{
    if delta.zone == 0 {
        return false;
    }
    if !all_went_beside(seats, delta.removed.as_slice()) {
        return false;
    }
    all_came_beside(zones, seats, delta.added.as_slice(), scratch)
}
