//! Where the parts of a set stand among its octets.

ghost use Rattle.std.specs.Prelude.{◌≡◌, ◌+◌, ◌≤◌, ◌++◌, ℕ, Bool, List, [], drop, length};
ghost use Rattle.std.specs.Prelude.{vec_capacity};
ghost use Rattle.std.specs.List.{flat_map};
ghost use Rattle.set_parts.specs.Names.{IsName};
ghost use Rattle.set_parts.specs.Datum.{Datum};
ghost use Rattle.set_parts.specs.BodyRecord.{Body};
ghost use Rattle.set_parts.specs.BodyRecord.TheVariants.{Alias};
ghost use Rattle.set_parts.specs.RecordSetRecord.{RecordSet};
ghost use Rattle.set_parts.specs.Octets.{body_octets, most_octets, value_octets};
ghost use Rattle.set_parts.specs.Sets.{IsBody};
ghost use Rattle.set_scratch.specs.Bodies.{count_of, values_of};
ghost use Rattle.set_scratch.specs.Kept.{AreAt, most_values, starts_of};
ghost use Rattle.set_scratch.specs.Spelling.{Spells};

use octets::{behind, number_at};
use set_parts::{behind_name, behind_policy, past};

/// How many octets a set has, how many of them its name, and where its body and its check begin.
#[derive(Clone, Copy)]
pub(crate) struct Places {
    pub len: usize,
    pub name: usize,
    pub body: usize,
    pub check: usize,
}

/// The octets of a body before its values: its kind, four of the time to live, two of their number.
pub(crate) const BEFORE_VALUES: usize = 7;

/// Finds the parts of a set among its octets, and puts the places of its values over others.
pub(crate) fn find_parts(octets: &[u8], starts: &mut Vec<u16>) -> Places
    requires room { most_values ≤ vec_capacity starts.old }
    requires spelled { (set : RecordSet) × Spells octets.now set }
    ensures places { (set : RecordSet) → Spells octets.now set → AreAt set result starts.new.items }
    ensures capacity { vec_capacity starts.new ≡ vec_capacity starts.old }
{
    let typed = behind_name(octets);
    let answers = behind_policy(past(typed, 2));
    let body = octets.len() - answers.len();
    let check = find_values(octets, body, starts);
    Places {
        len: octets.len(),
        name: octets.len() - typed.len(),
        body,
        check,
    }
}

/// Finds the values of a body, and says where it ends.
fn find_values(octets: &[u8], body: usize, starts: &mut Vec<u16>) -> usize
    requires within { body ≤ length octets.now }
    requires room { most_values ≤ vec_capacity starts.old }
    requires short { length octets.now ≤ most_octets }
    requires there { (what : Body) × (after : List ℕ) × IsBody what
        × (drop body octets.now ≡ body_octets what ++ after) }
    ensures end { (what : Body) (after : List ℕ) → IsBody what
        → drop body octets.now ≡ body_octets what ++ after
        → result ≡ body + length (body_octets what) }
    ensures starts { (what : Body) (after : List ℕ) → IsBody what
        → drop body octets.now ≡ body_octets what ++ after
        → starts.new.items ≡ starts_of (body + 7) (values_of what) }
    ensures capacity { vec_capacity starts.new ≡ vec_capacity starts.old }
{
    starts.clear();
    let answers = behind(octets, body);
    match count_in(answers) {
        Some(count) => fill(starts, octets, body + BEFORE_VALUES, count as usize),
        None => octets.len() - behind_alias(answers).len(),
    }
}

/// The number of a body's values. None for an alias.
pub(crate) fn count_in(octets: &[u8]) -> Option<u16>
    ensures { (what : Body) (rest : List ℕ) → octets.now ≡ body_octets what ++ rest
        → result ≡ count_of what }
{
    match octets {
        [0, _, _, _, _, _, _, ..] => Some(number_at(octets, 5)),
        _ => None,
    }
}

/// What stands behind an alias.
pub(crate) fn behind_alias(octets: &[u8]) -> &[u8]
    ensures within { length result.now ≤ length octets.now }
    ensures behind { (target : List (List ℕ)) (evaluate : Bool) (rest : List ℕ) → IsName target
        → octets.now ≡ body_octets (Alias target evaluate) ++ rest → result.now ≡ rest }
{
    past(behind_name(past(octets, 1)), 1)
}

/// Adds the place of each value, and says where they end.
fn fill(starts: &mut Vec<u16>, octets: &[u8], at: usize, count: usize) -> usize
    requires empty { starts.old.items ≡ [] }
    requires room { count ≤ vec_capacity starts.old }
    requires short { length octets.now ≤ most_octets }
    requires there { (values : List Datum) × (after : List ℕ) × (length values ≡ count)
        × (drop at octets.now ≡ flat_map value_octets values ++ after) }
    ensures end { (values : List Datum) (after : List ℕ) → length values ≡ count
        → drop at octets.now ≡ flat_map value_octets values ++ after
        → result ≡ at + length (flat_map value_octets values) }
    ensures starts { (values : List Datum) (after : List ℕ) → length values ≡ count
        → drop at octets.now ≡ flat_map value_octets values ++ after
        → starts.new.items ≡ starts_of at values }
    ensures capacity { vec_capacity starts.new ≡ vec_capacity starts.old }
{
    let mut place = at;
    for _ in 0..count {
        starts.push_reserved(place as u16);
        place += number_at(octets, place) as usize + 2;
    }
    place
}
