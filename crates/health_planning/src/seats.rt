//! Which valves a set has.

ghost use Rattle.std.specs.Prelude.{◌≡◌, ◌<◌, length};
ghost use Rattle.health_planning.specs.Building.{IsSeatAt};
ghost use Rattle.health_planning.specs.Wired.{own_part};

use crate::building::MOST_CHECKS;

/// The valve by which the set in a slot is healthy, and that of its group, each plus one, and 0 where
/// there is none.
#[derive(Clone, Copy, Debug, PartialEq, Eq)]
pub struct Seat {
    /// A valve of the set's own, or that of the check which alone decides it.
    pub set: u32,
    pub group: u32,
    /// The number of the check that alone decides the set, and 0 where there is none such.
    pub check: u32,
}

/// The valve of its own that a set has, plus one, and 0 where it has none.
pub fn own_valve(seat: u32) -> u32
    ensures { result ≡ own_part seat }
{
    if seat as usize <= MOST_CHECKS {
        return 0;
    }
    seat
}

/// The seat in a slot.
pub fn seat_at(seats: &[Seat], slot: u32) -> Seat
    requires { slot < length seats.now }
    ensures { IsSeatAt seats.now slot result }
{
    seats[slot as usize]
}
