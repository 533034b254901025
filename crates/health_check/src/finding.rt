//! Checks found by their numbers, which rise.

ghost use Rattle.std.specs.Prelude.{◌≡◌, ◌≤◌, length, true, false, IfSome, Some};
ghost use Rattle.std.specs.List.Sorted.{IsPartitionPoint};
ghost use Rattle.check_model.specs.Checks.{IdsRise, NextIdOrNone};
ghost use Rattle.health_check.specs.Places.{PlaceOrNone, comes_before, comes_not_behind};

use check_model::Check;

/// Where the check of a number stands.
pub fn place_of(list: &[(u32, Check)], id: u32) -> Option<usize>
    requires { IdsRise list.now }
    ensures { PlaceOrNone list.now id result }
{
    if let Some(place) = guessed(list, id) {
        return Some(place);
    }
    searched(list, id)
}

/// Where it stands, if no number is missing between the first check's and its own.
fn guessed(list: &[(u32, Check)], id: u32) -> Option<usize>
    requires { IdsRise list.now }
    ensures { IfSome result (λ place. PlaceOrNone list.now id (Some place)) }
{
    if list.is_empty() || id < list[0].0 {
        return None;
    }
    let place = (id - list[0].0) as usize;
    if place >= list.len() {
        return None;
    }
    if list[place].0 != id {
        return None;
    }
    Some(place)
}

/// Where it stands, looked for by halves.
fn searched(list: &[(u32, Check)], id: u32) -> Option<usize>
    requires { IdsRise list.now }
    ensures { PlaceOrNone list.now id result }
{
    let place = count_before(list, id);
    if place == list.len() {
        return None;
    }
    if list[place].0 != id {
        return None;
    }
    Some(place)
}

/// How many checks have smaller numbers.
fn count_before(list: &[(u32, Check)], id: u32) -> usize
    requires { IdsRise list.now }
    ensures within { result ≤ length list.now }
    ensures split { IsPartitionPoint (λ held. comes_before id held ≡ true)
        (λ held. comes_before id held ≡ false) list.now result }
{
    list.partition_point(|held| held.0 < id)
}

/// The least number above a given one.
pub fn id_after(list: &[(u32, Check)], id: u32) -> Option<u32>
    requires { IdsRise list.now }
    ensures { NextIdOrNone list.now id result }
{
    let place = count_up_to(list, id);
    if place == list.len() {
        return None;
    }
    Some(list[place].0)
}

/// How many checks have no larger numbers.
fn count_up_to(list: &[(u32, Check)], id: u32) -> usize
    requires { IdsRise list.now }
    ensures within { result ≤ length list.now }
    ensures split { IsPartitionPoint (λ held. comes_not_behind id held ≡ true)
        (λ held. comes_not_behind id held ≡ false) list.now result }
{
    list.partition_point(|held| held.0 <= id)
}
