//! Where checks stand by their numbers, their valves, and what their checkers saw.

ghost use Rattle.std.specs.Prelude.{◌≡◌, ◌<◌, Some, length, slice_get, slice_index, true};
ghost use Rattle.health_planning.specs.Wired.{IsPlace, IsValveWith, StandApart, StandsAt};

use checker_state::Checkers;

/// The place of a number.
pub fn place_in(ids: &[u32], id: u32) -> Option<usize>
    ensures { IsPlace ids.now id result }
{
    for (place, other) in ids.iter().enumerate() {
        if *other == id {
            return Some(place);
        }
    }
    None
}

/// The place of a number among some that differ. Where they rise it is found by halving, and at once
/// where none is missing between the first one and it.
pub fn place_near(ids: &[u32], id: u32) -> Option<usize>
    requires { StandApart ids.now }
    ensures { IsPlace ids.now id result }
{
    let guess = place_guessed(ids, id);
    if is_at(ids, guess, id) {
        return Some(guess);
    }
    let place = ids.partition_point(|other| *other < id);
    if is_at(ids, place, id) {
        return Some(place);
    }
    place_in(ids, id)
}

/// The valve of a check by its number.
pub fn valve_with(ids: &[u32], numbers: &[u32], id: u32) -> Option<u32>
    requires apart { StandApart ids.now }
    requires as_many { length numbers.now ≡ length ids.now }
    ensures { IsValveWith ids.now numbers.now id result }
{
    let Some(place) = place_near(ids, id) else {
        return None;
    };
    Some(number_at(numbers, place))
}

/// The number at a place.
pub fn number_at(numbers: &[u32], place: usize) -> u32
    requires { place < length numbers.now }
    ensures { result ≡ slice_index numbers.now place }
{
    numbers[place]
}

/// Where a number would stand, if none were missing between the first one and it.
fn place_guessed(ids: &[u32], id: u32) -> usize {
    if ids.is_empty() {
        return 0;
    }
    id.wrapping_sub(ids[0]) as usize
}

/// Whether a number stands at a place.
fn is_at(ids: &[u32], place: usize, id: u32) -> bool
    ensures { result ≡ true → slice_get ids.now place ≡ Some id }
{
    place < ids.len() && ids[place] == id
}

/// A place of a number, which is looked for from one place on, and then from the front.
pub fn place_from(ids: &[u32], id: u32, from: usize) -> Option<usize>
    ensures { StandsAt ids.now id result }
{
    for place in from..ids.len() {
        if ids[place] == id {
            return Some(place);
        }
    }
    place_in(ids, id)
}

/// What the checkers of the check at a place saw.
pub fn seen_at(seen: &[Option<Checkers>], place: usize) -> Option<Checkers>
    requires { place < length seen.now }
    ensures { slice_get seen.now place ≡ Some result }
{
    seen[place]
}
