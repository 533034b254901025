//! Seats of sets that a check alone decides, or nothing: such a seat tells the valve of that check.

ghost use Rattle.std.specs.Prelude.{◌≡◌, ◌≢◌, ◌≤◌, ◌⊎◌, ℕ, None, Some, false, length, slice_get, suc};
ghost use Rattle.std.specs.Prelude.{vec_capacity};
ghost use Rattle.health_planning.specs.Building.{AreFree, AreGiven, AreSeatedAnew, AreSeatedBeside};
ghost use Rattle.health_planning.specs.Building.{IsBare, IsListed, HoldsSet};
ghost use Rattle.health_planning.specs.Building.{SeatsCheck, TellSlot, TellsCheck, TellsOn};
ghost use Rattle.health_planning.specs.Wired.{HaveValves, IsAlone, StandApart, group_seat, is_watched};
ghost use Rattle.health_planning.specs.Wired.{set_seat, valve_with};
ghost use Rattle.record_set.specs.declared.sets.RecordSet.{RecordSet};
ghost use Rattle.policy_select.specs.Looking.{RefersTo};
ghost use Rattle.policy_select.specs.SetRefRecord.{SetRef};
ghost use Rattle.policy_select.specs.Telling.{watch_of};
ghost use Rattle.policy_select.specs.Zones.{placed_in};
ghost use Rattle.zone_model.specs.Slotted.{IsHere, Slotted};

use crate::building::{clear_seats, fit_seats, grow_seats};
use crate::finding::valve_with;
use crate::listing::only_check;
use crate::seats::{Seat, seat_at};
use policy_select::{SetRef, Watch, Zones};

/// What the seat of a set tells where a check alone decides it, or nothing; and nothing where more does.
fn seat_for(watch: Watch, ids: &[u32], numbers: &[u32]) -> Seat
    requires apart { StandApart ids.now }
    requires valves { HaveValves (length ids.now) numbers.now }
    requires least { (place id : ℕ) → slice_get ids.now place ≡ Some id → 1 ≤ id }
    requires named { (named : RecordSet) × (watch ≡ watch_of named) }
    requires there { (id : ℕ) → watch.check ≡ Some id
        → (place : ℕ) × (slice_get ids.now place ≡ Some id) }
    ensures plain { (named : RecordSet) → watch ≡ watch_of named → is_watched named ≡ false
        → result.set ≡ 0 }
    ensures alone { (named : RecordSet) (id : ℕ) → watch ≡ watch_of named → IsAlone named id
        → (result.check ≡ id) × (result.set ≡ suc (valve_with ids.now numbers.now id)) }
    ensures early { result.set ≤ 200 }
{
    let bare = Seat {
        set: 0,
        group: 0,
        check: 0,
    };
    let only = only_check(watch);
    if only == 0 {
        return bare;
    }
    let Some(valve) = valve_with(ids, numbers, only) else {
        return bare;
    };
    Seat {
        set: valve + 1,
        group: 0,
        check: only,
    }
}

/// Seats a set, where it is there, as one that a check alone decides, or nothing. One that more decides
/// has no valve then. What its seat tells of its group stays.
fn seat_check(zones: &Zones, set: SetRef, ids: &[u32], numbers: &[u32], seats: &mut Vec<Seat>)
    requires slots { zones.now.slots ≤ length seats.old.items }
    requires apart { StandApart ids.now }
    requires valves { HaveValves (length ids.now) numbers.now }
    requires least { (place id : ℕ) → slice_get ids.now place ≡ Some id → 1 ≤ id }
    requires there { (set : SetRef) (named : RecordSet) (id : ℕ)
        → RefersTo zones.now.zones set named → named.check ≡ Some id
        → (place : ℕ) × (slice_get ids.now place ≡ Some id) }
    ensures told { (p : Slotted) → IsHere (placed_in zones.now.zones set.zone) p → p.slot ≡ set.slot
        → TellsCheck ids.now numbers.now seats.new.items p }
    ensures stays { (p : Slotted) (zone : ℕ) → IsHere (placed_in zones.now.zones zone) p
        → TellsCheck ids.now numbers.now seats.old.items p
        → TellsCheck ids.now numbers.now seats.new.items p }
    ensures others { (slot : ℕ) → slot ≢ set.slot → TellsOn seats.old.items seats.new.items slot }
    ensures each { (slot : ℕ) → SeatsCheck zones.now.zones seats.old.items seats.new.items slot }
    ensures groups { (slot : ℕ)
        → group_seat seats.new.items slot ≡ group_seat seats.old.items slot }
    ensures size { length seats.new.items ≡ length seats.old.items }
    ensures room { vec_capacity seats.new ≡ vec_capacity seats.old }
{
    zones.well_formed();
    zones.slots_apart();
    zones.slots_within();
    let Some(watch) = zones.watch(set) else {
        return;
    };
    let only = seat_for(watch, ids, numbers);
    let seat = seat_at(seats, set.slot);
    seats[set.slot as usize] = Seat {
        set: only.set,
        group: seat.group,
        check: only.check,
    };
}

/// Seats the ones among some sets that are there as sets that a check alone decides, or nothing.
fn seat_those(zones: &Zones, those: &[SetRef], ids: &[u32], numbers: &[u32], seats: &mut Vec<Seat>)
    requires slots { zones.now.slots ≤ length seats.old.items }
    requires apart { StandApart ids.now }
    requires valves { HaveValves (length ids.now) numbers.now }
    requires least { (place id : ℕ) → slice_get ids.now place ≡ Some id → 1 ≤ id }
    requires there { (set : SetRef) (named : RecordSet) (id : ℕ)
        → RefersTo zones.now.zones set named → named.check ≡ Some id
        → (place : ℕ) × (slice_get ids.now place ≡ Some id) }
    ensures told { (set : SetRef) (p : Slotted) → IsListed those.now set
        → IsHere (placed_in zones.now.zones set.zone) p → p.slot ≡ set.slot
        → TellsCheck ids.now numbers.now seats.new.items p }
    ensures stays { (p : Slotted) (zone : ℕ) → IsHere (placed_in zones.now.zones zone) p
        → TellsCheck ids.now numbers.now seats.old.items p
        → TellsCheck ids.now numbers.now seats.new.items p }
    ensures others { (slot : ℕ) → TellSlot those.now slot
        ⊎ TellsOn seats.old.items seats.new.items slot }
    ensures each { (slot : ℕ) → SeatsCheck zones.now.zones seats.old.items seats.new.items slot }
    ensures groups { (slot : ℕ)
        → group_seat seats.new.items slot ≡ group_seat seats.old.items slot }
    ensures size { length seats.new.items ≡ length seats.old.items }
    ensures room { vec_capacity seats.new ≡ vec_capacity seats.old }
{
    for set in those {
        seat_check(zones, *set, ids, numbers, seats);
    }
}

/// Seats the sets of a zone by the checks that alone decide them. Those that name no check are passed over,
/// where no set of the zone names one.
fn seat_zone(zones: &Zones, zone: u32, ids: &[u32], numbers: &[u32], seats: &mut Vec<Seat>)
    requires slots { zones.now.slots ≤ length seats.old.items }
    requires apart { StandApart ids.now }
    requires valves { HaveValves (length ids.now) numbers.now }
    requires least { (place id : ℕ) → slice_get ids.now place ≡ Some id → 1 ≤ id }
    requires there { (set : SetRef) (named : RecordSet) (id : ℕ)
        → RefersTo zones.now.zones set named → named.check ≡ Some id
        → (place : ℕ) × (slice_get ids.now place ≡ Some id) }
    ensures told { (p : Slotted) → IsHere (placed_in zones.now.zones zone) p
        → (p.set.check ≡ None → TellsCheck ids.now numbers.now seats.old.items p)
        → TellsCheck ids.now numbers.now seats.new.items p }
    ensures stays { (p : Slotted) (zone : ℕ) → IsHere (placed_in zones.now.zones zone) p
        → TellsCheck ids.now numbers.now seats.old.items p
        → TellsCheck ids.now numbers.now seats.new.items p }
    ensures each { (slot : ℕ) → SeatsCheck zones.now.zones seats.old.items seats.new.items slot }
    ensures groups { (slot : ℕ)
        → group_seat seats.new.items slot ≡ group_seat seats.old.items slot }
    ensures size { length seats.new.items ≡ length seats.old.items }
    ensures room { vec_capacity seats.new ≡ vec_capacity seats.old }
{
    let named = zones.checked(zone);
    if named == 0 {
        return;
    }
    seat_each(zones, zone, ids, numbers, seats);
}

/// Seats each set of a zone by the check that alone decides it.
fn seat_each(zones: &Zones, zone: u32, ids: &[u32], numbers: &[u32], seats: &mut Vec<Seat>)
    requires slots { zones.now.slots ≤ length seats.old.items }
    requires apart { StandApart ids.now }
    requires valves { HaveValves (length ids.now) numbers.now }
    requires least { (place id : ℕ) → slice_get ids.now place ≡ Some id → 1 ≤ id }
    requires there { (set : SetRef) (named : RecordSet) (id : ℕ)
        → RefersTo zones.now.zones set named → named.check ≡ Some id
        → (place : ℕ) × (slice_get ids.now place ≡ Some id) }
    ensures told { (p : Slotted) → IsHere (placed_in zones.now.zones zone) p
        → TellsCheck ids.now numbers.now seats.new.items p }
    ensures stays { (p : Slotted) (zone : ℕ) → IsHere (placed_in zones.now.zones zone) p
        → TellsCheck ids.now numbers.now seats.old.items p
        → TellsCheck ids.now numbers.now seats.new.items p }
    ensures each { (slot : ℕ) → SeatsCheck zones.now.zones seats.old.items seats.new.items slot }
    ensures groups { (slot : ℕ)
        → group_seat seats.new.items slot ≡ group_seat seats.old.items slot }
    ensures size { length seats.new.items ≡ length seats.old.items }
    ensures room { vec_capacity seats.new ≡ vec_capacity seats.old }
{
    for i in 0..zones.count(zone) {
        let Some(set) = zones.at(zone, i) else {
            unreachable!();
        };
        seat_check(zones, set, ids, numbers, seats);
    }
}

/// Seats all sets by the checks that alone decide them, where no seat tells a valve yet.
fn seat_all(zones: &Zones, ids: &[u32], numbers: &[u32], seats: &mut Vec<Seat>)
    requires bare { (slot : ℕ) → IsBare seats.old.items slot }
    requires slots { zones.now.slots ≤ length seats.old.items }
    requires apart { StandApart ids.now }
    requires valves { HaveValves (length ids.now) numbers.now }
    requires least { (place id : ℕ) → slice_get ids.now place ≡ Some id → 1 ≤ id }
    requires there { (set : SetRef) (named : RecordSet) (id : ℕ)
        → RefersTo zones.now.zones set named → named.check ≡ Some id
        → (place : ℕ) × (slice_get ids.now place ≡ Some id) }
    ensures told { (zone : ℕ) (p : Slotted) → IsHere (placed_in zones.now.zones zone) p
        → TellsCheck ids.now numbers.now seats.new.items p }
    ensures each { (slot : ℕ) → SeatsCheck zones.now.zones seats.old.items seats.new.items slot }
    ensures groups { (slot : ℕ)
        → group_seat seats.new.items slot ≡ group_seat seats.old.items slot }
    ensures size { length seats.new.items ≡ length seats.old.items }
    ensures room { vec_capacity seats.new ≡ vec_capacity seats.old }
{
    zones.well_formed();
    let mut zone = 0;
    while let Some(next) = zones.zone_after(zone) {
        seat_zone(zones, next, ids, numbers, seats);
        zone = next;
    }
}

/// Clears what the seat in a slot tells of its set, where there is a seat.
fn clear_set(seats: &mut Vec<Seat>, slot: u32)
    ensures here { set_seat seats.new.items slot ≡ 0 }
    ensures others { (other : ℕ) → other ≢ slot
        → TellsOn seats.old.items seats.new.items other }
    ensures groups { (other : ℕ)
        → group_seat seats.new.items other ≡ group_seat seats.old.items other }
    ensures size { length seats.new.items ≡ length seats.old.items }
    ensures room { vec_capacity seats.new ≡ vec_capacity seats.old }
{
    let at = slot as usize;
    if at >= seats.len() {
        return;
    }
    let seat = seat_at(seats, slot);
    seats[at] = Seat {
        set: 0,
        group: seat.group,
        check: 0,
    };
}

/// Clears what the seats of sets tell that went. What they tell of groups stays.
fn clear_gone(seats: &mut Vec<Seat>, gone: &[SetRef])
    ensures here { (slot : ℕ) → TellSlot gone.now slot → set_seat seats.new.items slot ≡ 0 }
    ensures others { (slot : ℕ) → TellSlot gone.now slot
        ⊎ TellsOn seats.old.items seats.new.items slot }
    ensures groups { (slot : ℕ)
        → group_seat seats.new.items slot ≡ group_seat seats.old.items slot }
    ensures size { length seats.new.items ≡ length seats.old.items }
    ensures room { vec_capacity seats.new ≡ vec_capacity seats.old }
{
    for set in gone {
        clear_set(seats, set.slot);
    }
}

/// Seats no set, and then all by the checks that alone decide them.
fn seat_whole(zones: &Zones, ids: &[u32], numbers: &[u32], seats: &mut Vec<Seat>)
    requires room { zones.now.slots ≤ vec_capacity seats.old }
    requires apart { StandApart ids.now }
    requires valves { HaveValves (length ids.now) numbers.now }
    requires least { (place id : ℕ) → slice_get ids.now place ≡ Some id → 1 ≤ id }
    requires there { (set : SetRef) (named : RecordSet) (id : ℕ)
        → RefersTo zones.now.zones set named → named.check ≡ Some id
        → (place : ℕ) × (slice_get ids.now place ≡ Some id) }
    ensures told { (zone : ℕ) (p : Slotted) → IsHere (placed_in zones.now.zones zone) p
        → TellsCheck ids.now numbers.now seats.new.items p }
    ensures here { (slot : ℕ) → set_seat seats.new.items slot ≢ 0 → HoldsSet zones.now.zones slot }
    ensures free { AreFree zones.now.slots seats.new.items }
    ensures room { vec_capacity seats.new ≡ vec_capacity seats.old }
{
    seats.clear();
    fit_seats(seats, zones.slots());
    seat_all(zones, ids, numbers, seats);
}

/// Seats by which the valves of sets and groups can be planned anew: those of the listed sets and of the noted
/// members are cleared, and those of sets that went. Then known sets and those that went and came are seated by
/// the checks that alone decide them, as far as they are there; or all sets.
pub fn seat_anew(
    zones: &Zones,
    whole: bool,
    refs: &[SetRef],
    members: &[SetRef],
    gone: &[SetRef],
    came: &[SetRef],
    ids: &[u32],
    numbers: &[u32],
    seats: &mut Vec<Seat>,
)
    requires given { AreGiven refs.now members.now seats.old.items }
    requires room { zones.now.slots ≤ vec_capacity seats.old }
    requires apart { StandApart ids.now }
    requires valves { HaveValves (length ids.now) numbers.now }
    requires least { (place id : ℕ) → slice_get ids.now place ≡ Some id → 1 ≤ id }
    requires there { (set : SetRef) (named : RecordSet) (id : ℕ)
        → RefersTo zones.now.zones set named → named.check ≡ Some id
        → (place : ℕ) × (slice_get ids.now place ≡ Some id) }
    ensures anew { AreSeatedAnew zones.now.zones ids.now numbers.now whole refs.now gone.now came.now
        seats.old.items seats.new.items }
    ensures free { AreFree zones.now.slots seats.new.items }
    ensures room { vec_capacity seats.new ≡ vec_capacity seats.old }
{
    zones.slots_within();
    if whole {
        seat_whole(zones, ids, numbers, seats);
        return;
    }
    clear_seats(seats, refs, members, zones.slots());
    clear_gone(seats, gone);
    seat_those(zones, refs, ids, numbers, seats);
    seat_those(zones, gone, ids, numbers, seats);
    seat_those(zones, came, ids, numbers, seats);
}

/// Seats those of sets that went and came by the checks that alone decide them that are there, and clears the
/// seats of the others that went.
pub fn seat_beside(
    zones: &Zones,
    gone: &[SetRef],
    came: &[SetRef],
    ids: &[u32],
    numbers: &[u32],
    seats: &mut Vec<Seat>,
)
    requires room { zones.now.slots ≤ vec_capacity seats.old }
    requires apart { StandApart ids.now }
    requires valves { HaveValves (length ids.now) numbers.now }
    requires least { (place id : ℕ) → slice_get ids.now place ≡ Some id → 1 ≤ id }
    requires there { (set : SetRef) (named : RecordSet) (id : ℕ)
        → RefersTo zones.now.zones set named → named.check ≡ Some id
        → (place : ℕ) × (slice_get ids.now place ≡ Some id) }
    ensures beside { AreSeatedBeside zones.now.zones ids.now numbers.now gone.now came.now
        seats.old.items seats.new.items }
    ensures room { vec_capacity seats.new ≡ vec_capacity seats.old }
{
    grow_seats(seats, zones.slots());
    clear_gone(seats, gone);
    seat_those(zones, gone, ids, numbers, seats);
    seat_those(zones, came, ids, numbers, seats);
}
