//! Commands by which one set goes that has a valve of its own, as an evaluated alias has, from a group without one,
//! while another one leads where it led: nothing feeds that valve any more.

ghost use Rattle.std.specs.Prelude.{◌≡◌, ℕ, Some};
ghost use Rattle.health_standing.specs.Unleading.{LeavesValve};
ghost use Rattle.health_valves.specs.Valves.{IsReady};

use crate::finding::find_seat;
use health_planning::{MOST_CHECKS, Seat, SetRef, Zones, own_valve};
use health_valves::Valves;

/// The valve of its own that a set had which isn't there any more, in a group without one.
pub fn valve_left(zones: &Zones, seats: &[Seat], valves: &Valves, set: SetRef) -> Option<u32>
    requires ready { IsReady valves.now }
    ensures found { (valve : ℕ) → result ≡ Some valve
        → LeavesValve zones.now.zones seats.now valves.now set valve }
    ensures all { (valve : ℕ) → LeavesValve zones.now.zones seats.now valves.now set valve
        → result ≡ Some valve }
{
    if zones.watch(set).is_some() {
        return None;
    }
    let seat = find_seat(seats, set.slot);
    if seat.group != 0 {
        return None;
    }
    let told = own_valve(seat.set);
    if told == 0 {
        return None;
    }
    let valve = told - 1;
    if valve as usize >= valves.len() {
        return None;
    }
    if !valves.is_shared(valve, MOST_CHECKS) {
        return None;
    }
    Some(valve)
}
