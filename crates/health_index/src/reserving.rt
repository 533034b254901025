//! Room in which all valves can be laid out anew.

ghost use Rattle.std.specs.Prelude.{◌≡◌, ◌≤◌, ◌<◌, ◌+◌, ◌*◌, ◌^◌, ◌↔◌, ℕ, IsOk, IsTrue, OnOk, length, vec_capacity};
ghost use Rattle.health_index.specs.Room.{HasValveRoom, HasValveRoomForGroup};
ghost use Rattle.health_valves.specs.Valves.{Net, ValvesStandFor, size_of};
ghost use Rattle.health_valves.specs.Laying.{HasRoomFor, links_of};
ghost use Rattle.health_valves.specs.Pass.{IsIdle, MeetAll};

use checker_state::Checkers;
use health_planning::{Seat, SetRef};
use health_valves::{Blueprint, Valves, make_room};
use octets::OutOfMemory;

/// The most slots, so that valves and links have numbers.
const MOST_SLOTS: usize = 1 << 29;

/// The most checks.
const CHECKS: usize = 200;

/// The most links between checks, which have at most 255 children, and one more for each of them.
const CHECK_LINKS: usize = 51200;

/// The most numbers by which children are kept: for each check its number, how many children it has, and these.
const KIN: usize = 51400;

/// Makes room for all checks that there can be. The lists stay as they are.
pub fn room_for_checks(
    ids: &mut Vec<u32>,
    seen: &mut Vec<Option<Checkers>>,
) -> Result<(), OutOfMemory>
    ensures ids { ids.new.items ≡ ids.old.items }
    ensures seen { seen.new.items ≡ seen.old.items }
    ensures ids_kept { vec_capacity ids.old ≤ vec_capacity ids.new }
    ensures seen_kept { vec_capacity seen.old ≤ vec_capacity seen.new }
    ensures ids_room { OnOk result (200 ≤ vec_capacity ids.new) }
    ensures seen_room { OnOk result (200 ≤ vec_capacity seen.new) }
    ensures ready { 200 ≤ vec_capacity ids.old → 200 ≤ vec_capacity seen.old → IsOk result }
{
    let Ok(()) = make_room(ids, CHECKS) else {
        return Err(OutOfMemory);
    };
    let Ok(()) = make_room(seen, CHECKS) else {
        return Err(OutOfMemory);
    };
    Ok(())
}

/// Makes room for the valves of all checks that there can be. The list stays as it is.
pub fn room_for_numbers(numbers: &mut Vec<u32>) -> Result<(), OutOfMemory>
    ensures numbers { numbers.new.items ≡ numbers.old.items }
    ensures kept { vec_capacity numbers.old ≤ vec_capacity numbers.new }
    ensures room { OnOk result (200 ≤ vec_capacity numbers.new) }
    ensures ready { 200 ≤ vec_capacity numbers.old → IsOk result }
{
    make_room(numbers, CHECKS)
}

/// Makes room for the children of all calculated checks that there can be. The list stays as it is.
pub fn room_for_kin(kin: &mut Vec<u32>) -> Result<(), OutOfMemory>
    ensures kin { kin.new.items ≡ kin.old.items }
    ensures kept { vec_capacity kin.old ≤ vec_capacity kin.new }
    ensures room { OnOk result (51400 ≤ vec_capacity kin.new) }
    ensures ready { 51400 ≤ vec_capacity kin.old → IsOk result }
{
    make_room(kin, KIN)
}

/// Makes room for all valves and links over so many slots. The seats, the listed sets, the noted
/// members and the valves stay as they are; nothing is planned any more.
pub fn room_for_slots(
    seats: &mut Vec<Seat>,
    refs: &mut Vec<SetRef>,
    members: &mut Vec<SetRef>,
    blueprint: &mut Blueprint,
    valves: &mut Valves,
    slots: usize,
) -> Result<(), OutOfMemory>
    ensures seats { seats.new.items ≡ seats.old.items }
    ensures refs { refs.new.items ≡ refs.old.items }
    ensures members { members.new.items ≡ members.old.items }
    ensures values { valves.new.values.items ≡ valves.old.values.items }
    ensures size { size_of valves.new ≡ size_of valves.old }
    ensures links { links_of valves.new ≡ links_of valves.old }
    ensures stays { (net : Net) (own : ℕ → ℕ) → ValvesStandFor net own valves.old → ValvesStandFor net own valves.new }
    ensures meet { (net : Net) (own : ℕ → ℕ) → MeetAll net own valves.old
        → MeetAll net own valves.new }
    ensures idle { IsIdle valves.old → IsIdle valves.new }

    // No room is lost.
    ensures seats_kept { vec_capacity seats.old ≤ vec_capacity seats.new }
    ensures refs_kept { vec_capacity refs.old ≤ vec_capacity refs.new }
    ensures members_kept { vec_capacity members.old ≤ vec_capacity members.new }
    ensures blueprint_kept { blueprint.old.room + length blueprint.old.triggers
        ≤ blueprint.new.room + length blueprint.new.triggers }
    ensures links_kept { blueprint.old.links_room + length blueprint.old.links
        ≤ blueprint.new.links_room + length blueprint.new.links }
    ensures valves_kept { (n m : ℕ) → HasRoomFor valves.old n m → HasRoomFor valves.new n m }

    ensures few { OnOk result (slots ≤ 2 ^ 29) }
    ensures seats_room { OnOk result (slots ≤ vec_capacity seats.new) }
    ensures refs_room { OnOk result (slots * 2 ≤ vec_capacity refs.new) }
    ensures members_room { OnOk result (slots * 2 ≤ vec_capacity members.new) }
    ensures blueprint_room { OnOk result (slots * 2 + 200 ≤ blueprint.new.room + length blueprint.new.triggers) }
    ensures links_room { OnOk result
        (slots * 3 + 51200 ≤ blueprint.new.links_room + length blueprint.new.links) }
    ensures valves_room { OnOk result (HasRoomFor valves.new (slots * 2 + 200) (slots * 3 + 51200)) }
    ensures ready { slots ≤ 2 ^ 29 → slots ≤ vec_capacity seats.old → slots * 2 ≤ vec_capacity refs.old
        → slots * 2 ≤ vec_capacity members.old
        → slots * 2 + 200 ≤ blueprint.old.room + length blueprint.old.triggers
        → slots * 3 + 51200 ≤ blueprint.old.links_room + length blueprint.old.links
        → HasRoomFor valves.old (slots * 2 + 200) (slots * 3 + 51200) → IsOk result }
{
    blueprint.clear();
    if slots > MOST_SLOTS {
        return Err(OutOfMemory);
    }
    let Ok(()) = make_room(seats, slots) else {
        return Err(OutOfMemory);
    };
    // Sets that went stay listed until all is laid out anew.
    let listed = slots * 2;
    let Ok(()) = make_room(refs, listed) else {
        return Err(OutOfMemory);
    };
    let Ok(()) = make_room(members, listed) else {
        return Err(OutOfMemory);
    };
    let all = slots * 2 + CHECKS;
    let links = slots * 3 + CHECK_LINKS;
    let Ok(()) = blueprint.reserve(all, links) else {
        return Err(OutOfMemory);
    };
    let Ok(()) = valves.reserve(all, links) else {
        return Err(OutOfMemory);
    };
    Ok(())
}

/// Whether there is room for one valve more with two links, as over so many slots there is for all.
pub fn has_room_for_one(valves: &Valves, slots: usize) -> bool
    requires few { slots ≤ 2 ^ 29 }
    ensures { IsTrue result ↔ HasValveRoom valves.now slots }
{
    valves.len() < slots * 2 + CHECKS && valves.links() <= slots * 3 + CHECK_LINKS - 2
}

/// Whether so many references more want no memory.
pub fn has_room_for(refs: &Vec<SetRef>, more: usize) -> bool
    ensures { IsTrue result ↔ length refs.now.items + more ≤ vec_capacity refs.now }
{
    more <= refs.capacity() - refs.len()
}

/// Whether there is room for two valves more with so many links and two.
pub fn has_room_for_group(valves: &Valves, fed: usize, slots: usize) -> bool
    requires few { slots ≤ 2 ^ 29 }
    requires few_fed { fed ≤ 128 }
    ensures { IsTrue result ↔ HasValveRoomForGroup valves.now fed slots }
{
    valves.len() < slots * 2 + CHECKS - 1 && valves.links() <= slots * 3 + CHECK_LINKS - 2 - fed
}

/// Whether there was room each time.
pub fn each_ok(
    first: Result<(), OutOfMemory>,
    second: Result<(), OutOfMemory>,
    third: Result<(), OutOfMemory>,
    fourth: Result<(), OutOfMemory>,
    fifth: Result<(), OutOfMemory>,
) -> Result<(), OutOfMemory>
    ensures first { OnOk result (IsOk first) }
    ensures second { OnOk result (IsOk second) }
    ensures third { OnOk result (IsOk third) }
    ensures fourth { OnOk result (IsOk fourth) }
    ensures fifth { OnOk result (IsOk fifth) }
    ensures each { IsOk first → IsOk second → IsOk third → IsOk fourth → IsOk fifth → IsOk result }
{
    match (first, second, third, fourth, fifth) {
        (Ok(()), Ok(()), Ok(()), Ok(()), Ok(())) => Ok(()),
        _ => Err(OutOfMemory),
    }
}
