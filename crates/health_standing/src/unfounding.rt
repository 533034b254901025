//! Commands by which the last evaluated alias goes that leads to a group, while its own group has no valve: nothing
//! feeds its valve any more, nor that of the group, and seats tell neither.

ghost use Rattle.std.specs.Prelude.{◌≡◌, ◌↔◌, ◌<◌, ℕ, IsTrue, Some, length, suc, vec_capacity};
ghost use Rattle.health_standing.specs.Unfounding.{AreSeatedWithout, LeavesLast, TellWithout, told_among};
ghost use Rattle.health_standing.specs.declared.unfounding.LastAlias.{LastAlias};
ghost use Rattle.health_planning.specs.Building.{TellSlot, TellsOn};
ghost use Rattle.health_planning.specs.Wired.{group_seat};
ghost use Rattle.health_valves.specs.Valves.{IsReady, size_of};

use crate::finding::find_seat;
use crate::regrouping::put_seat;
use health_planning::{MOST_CHECKS, Seat, SetRef, Zones, own_valve};
use health_valves::Valves;

/// The valve of an evaluated alias that went, and that of the group to which no other one leads.
#[derive(Clone, Copy)]
pub struct LastAlias {
    pub valve: u32,
    pub group: u32,
}

/// The valve of its own that a set had which isn't there any more, in a group without one, and the valve of a group
/// which feeds that alone, and which alone of such feeds it.
pub fn last_left(zones: &Zones, seats: &[Seat], valves: &Valves, set: SetRef) -> Option<LastAlias>
    requires ready { IsReady valves.now }
    ensures found { (its : LastAlias) → result ≡ Some its
        → LeavesLast zones.now.zones seats.now valves.now set its.valve its.group }
    ensures within { (its : LastAlias) → result ≡ Some its → its.group < size_of valves.now }
    ensures all { (valve group : ℕ) → LeavesLast zones.now.zones seats.now valves.now set valve group
        → result ≡ Some (record { valve = valve; group = group }) }
{
    if zones.watch(set).is_some() {
        return None;
    }
    let seat = find_seat(seats, set.slot);
    if seat.group != 0 {
        return None;
    }
    let told = own_valve(seat.set);
    if told == 0 {
        return None;
    }
    let valve = told - 1;
    if valve as usize >= valves.len() {
        return None;
    }
    let Some(group) = valves.sole_feeder(valve, MOST_CHECKS) else {
        return None;
    };
    Some(LastAlias { valve, group })
}

/// Whether a seat tells this valve for the group of its set.
fn tells_group(seat: Seat, group: u32) -> bool
    ensures { IsTrue result ↔ (seat.group ≡ suc group) }
{
    if seat.group == 0 {
        return false;
    }
    seat.group - 1 == group
}

/// The seat in a slot tells no valve for its group any more where it told this one.
fn clear_group(seats: &mut Vec<Seat>, slot: u32, group: u32)
    ensures sets { (other : ℕ) → TellsOn seats.old.items seats.new.items other }
    ensures gone { group_seat seats.old.items slot ≡ suc group → group_seat seats.new.items slot ≡ 0 }
    ensures groups { (other : ℕ) → (group_seat seats.old.items other ≡ suc group → ⊥)
        → group_seat seats.new.items other ≡ group_seat seats.old.items other }
    ensures others { (other : ℕ) → (other ≡ slot → ⊥)
        → group_seat seats.new.items other ≡ group_seat seats.old.items other }
    ensures size { length seats.new.items ≡ length seats.old.items }
    ensures room { vec_capacity seats.new ≡ vec_capacity seats.old }
{
    let seat = find_seat(seats, slot);
    if !tells_group(seat, group) {
        return;
    }
    seats[slot as usize] = Seat {
        set: seat.set,
        group: 0,
        check: seat.check,
    };
}

/// No seat tells a valve for a group any more, where those that do are noted.
fn clear_groups(seats: &mut Vec<Seat>, noted: &[SetRef], group: u32)
    requires noted { (slot : ℕ) → group_seat seats.old.items slot ≡ suc group → TellSlot noted.now slot }
    ensures told { TellWithout (suc group) seats.old.items seats.new.items }
    ensures size { length seats.new.items ≡ length seats.old.items }
    ensures room { vec_capacity seats.new ≡ vec_capacity seats.old }
{
    for set in noted {
        clear_group(seats, set.slot, group);
    }
}

/// So it is then, and the seat in a slot tells nothing.
pub fn seat_without(seats: &mut Vec<Seat>, noted: &[SetRef], slot: u32, group: u32)
    requires noted { (other : ℕ) → group_seat seats.old.items other ≡ suc group → TellSlot noted.now other }
    requires slot { slot < length seats.old.items }
    ensures seated { AreSeatedWithout slot (suc group) seats.old.items seats.new.items }
    ensures room { vec_capacity seats.new ≡ vec_capacity seats.old }
{
    clear_groups(seats, noted, group);
    put_seat(seats, slot, 0);
}

/// Those of some noted sets stay whose seats tell a valve for their group.
pub fn note_told(noted: &mut Vec<SetRef>, seats: &[Seat])
    ensures noted { noted.new.items ≡ told_among seats.now noted.old.items }
    ensures room { vec_capacity noted.new ≡ vec_capacity noted.old }
{
    noted.retain(|set| find_seat(seats, set.slot).group != 0);
}
