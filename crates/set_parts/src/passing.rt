//! Parts passed over: what stands behind a name, a text, a place, a policy.

ghost use Rattle.std.specs.Prelude.{◌≡◌, ◌≤◌, ℕ, List, Option, ◌++◌, drop, length};
ghost use Rattle.set_reading.specs.Labels.{wire};
ghost use Rattle.set_reading.specs.Names.{IsName};
ghost use Rattle.set_reading.specs.PlaceRecord.{Place};
ghost use Rattle.set_reading.specs.RoutingRecord.{Routing};
ghost use Rattle.set_reading.specs.Octets.{check_octets, place_octets, routing_octets, text_octets};
ghost use Rattle.set_reading.specs.Sets.{IsPlace, IsRouting};
ghost use Rattle.set_parts.specs.Passing.{past_check, past_place, past_policy, past_text};

use set_reading::octet_at;

/// What stands behind the first octets, which is nothing where there are no more.
pub fn past(octets: &[u8], count: usize) -> &[u8]
    ensures { result.now ≡ drop count octets.now }
{
    if octets.len() < count {
        return &[];
    }
    &octets[count..]
}

/// What stands behind a name.
pub fn behind_name(octets: &[u8]) -> &[u8]
    ensures within { length result.now ≤ length octets.now }
    ensures behind { (labels : List (List ℕ)) (rest : List ℕ) → IsName labels
        → octets.now ≡ wire labels ++ rest → result.now ≡ rest }
{
    let mut left = octets;
    while let Ok((size, others)) = octet_at(left) {
        if size == 0 {
            return others;
        }
        left = past(others, size as usize);
    }
    left
}

/// What stands behind a text and its length.
pub fn behind_text(octets: &[u8]) -> &[u8]
    ensures passed { result.now ≡ past_text octets.now }
    ensures behind { (text rest : List ℕ) → octets.now ≡ text_octets text ++ rest
        → result.now ≡ rest }
{
    match octets {
        [size, others @ ..] => past(others, *size as usize),
        [] => octets,
    }
}

/// What stands behind a place.
pub fn behind_place(octets: &[u8]) -> &[u8]
    ensures passed { result.now ≡ past_place octets.now }
    ensures behind { (place : Place) (rest : List ℕ) → IsPlace place
        → octets.now ≡ place_octets place ++ rest → result.now ≡ rest }
{
    match octets {
        [1, others @ ..] => past(others, 1),
        [2, others @ ..] => past(others, 2),
        [3, others @ ..] => behind_text(past(others, 2)),
        [_, others @ ..] => others,
        [] => octets,
    }
}

/// What stands behind a policy.
pub fn behind_policy(octets: &[u8]) -> &[u8]
    ensures passed { result.now ≡ past_policy octets.now }
    ensures behind { (routing : Routing) (rest : List ℕ) → IsRouting routing
        → octets.now ≡ routing_octets routing ++ rest → result.now ≡ rest }
{
    match octets {
        [1, others @ ..] => past(behind_text(others), 1),
        [2, others @ ..] => past(behind_text(others), 1),
        [3, others @ ..] => behind_place(behind_text(others)),
        [4, others @ ..] => behind_text(behind_text(others)),
        [5, others @ ..] => behind_text(others),
        [6, others @ ..] => behind_text(past(behind_text(others), 4)),
        [_, others @ ..] => others,
        [] => octets,
    }
}

/// What stands behind a check.
pub fn behind_check(octets: &[u8]) -> &[u8]
    ensures passed { result.now ≡ past_check octets.now }
    ensures behind { (check : Option ℕ) (rest : List ℕ)
        → octets.now ≡ check_octets check ++ rest → result.now ≡ rest }
{
    match octets {
        [0, others @ ..] => others,
        [_, others @ ..] => past(others, 4),
        [] => octets,
    }
}
