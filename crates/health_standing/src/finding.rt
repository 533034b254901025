//! The seat in a slot, and the valve by which the set there is healthy.

ghost use Rattle.std.specs.Prelude.{◌≡◌, ◌↔◌, IsTrue};
ghost use Rattle.health_standing.specs.Index.{IsValveOf, TellsOfCheck};
ghost use Rattle.health_planning.specs.Building.{IsSeatAt};

use health_planning::{Seat, own_valve};

/// The seat in a slot; one without valves, where there is none.
pub fn find_seat(seats: &[Seat], slot: u32) -> Seat
    ensures { IsSeatAt seats.now slot result }
{
    let at = slot as usize;
    if at >= seats.len() {
        return Seat {
            set: 0,
            group: 0,
            check: 0,
        };
    }
    seats[at]
}

/// The valve by which the set in a slot is healthy: its own, or that of the check which alone decides it.
pub fn valve_of(seats: &[Seat], slot: u32) -> Option<usize>
    ensures { IsValveOf seats.now slot result }
{
    let seat = find_seat(seats, slot).set;
    if seat == 0 {
        return None;
    }
    Some((seat - 1) as usize)
}

/// Whether the seat in a slot tells the valve of a check, and none of the set's own.
pub fn tells_of_check(seats: &[Seat], slot: usize) -> bool
    ensures { IsTrue result ↔ TellsOfCheck seats.now slot }
{
    if slot >= seats.len() {
        return false;
    }
    let seat = seats[slot].set;
    seat != 0 && own_valve(seat) == 0
}
