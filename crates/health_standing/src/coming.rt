//! Evaluated aliases that come, of a group without a valve: what is asked of each, wherever it leads.

ghost use Rattle.std.specs.Prelude.{◌≡◌, None, Some};
ghost use Rattle.health_standing.specs.Leading.{ComesAlone};
ghost use Rattle.health_planning.specs.Telling.{watch_of};
ghost use Rattle.health_planning.specs.declared.Watch.{Watch};

use crate::finding::find_seat;
use crate::valve_leaving::has_no_valve;
use health_planning::{MOST_CHECKS, Scratch, Seat, SetRef, Watch, Zones};
use health_valves::Valves;

/// What decides the health of an evaluated alias that came, where its group has no valve, the seat in its slot tells
/// nothing, and the valves of 200 checks are there. The alias is read into the scratch.
pub(crate) fn alias_alone(
    zones: &Zones,
    seats: &[Seat],
    valves: &Valves,
    set: SetRef,
    scratch: &mut Scratch,
) -> Option<Watch>
    ensures found { (its : Watch) → result ≡ Some its → (comes : ComesAlone zones.now.zones seats.now valves.now set)
        × (its ≡ watch_of comes.set) }
    ensures none { result ≡ None → ComesAlone zones.now.zones seats.now valves.now set → ⊥ }
{
    zones.well_formed();
    let Some(watch) = zones.watch(set) else {
        return None;
    };
    if !watch.evaluates {
        return None;
    }
    let seat = find_seat(seats, set.slot);
    if seat.set != 0 {
        return None;
    }
    if seat.group != 0 {
        return None;
    }
    if valves.len() < MOST_CHECKS {
        return None;
    }
    if !has_no_valve(zones, seats, set, scratch) {
        return None;
    }
    Some(watch)
}
