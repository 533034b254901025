//! What is told of a set by its octets, without holding it.

ghost use Rattle.std.specs.Prelude.{◌≡◌, ◌++◌, ℕ, List, length};
ghost use Rattle.std.specs.List.{flat_map};
ghost use Rattle.set_parts.specs.Datum.{Datum};
ghost use Rattle.set_parts.specs.BodyRecord.{Body};
ghost use Rattle.set_parts.specs.RecordSetRecord.{RecordSet};
ghost use Rattle.set_parts.specs.Octets.{body_octets, value_octets};
ghost use Rattle.set_parts.specs.Sets.{IsBody};
ghost use Rattle.set_scratch.specs.Spelling.{Spells};
ghost use Rattle.set_scratch.specs.Telling.{is_alias, evaluates, target_of, watch_of};

use crate::parts::{alias_in, check_in, type_in};
use crate::places::{BEFORE_VALUES, behind_alias, count_in};
use set_parts::{Name, RType, behind_name, body_of, past, two_at};

/// What decides the health of a set.
#[derive(Clone, Copy, Debug, PartialEq, Eq)]
pub struct Watch {
    /// The number of the health check that the set names.
    pub check: Option<u32>,
    /// Whether the set is an alias for which the health of its target's sets counts.
    pub evaluates: bool,
}

/// What decides the health of the set of these octets.
pub fn watch_in(octets: &[u8]) -> Watch
    ensures { (set : RecordSet) → Spells octets.now set → result ≡ watch_of set }
{
    let body = body_of(octets);
    Watch {
        check: check_in(behind_body(body)),
        evaluates: evaluates_in(body),
    }
}

/// The name and the type of the target group of the set of these octets, which an alias alone has.
pub fn target_in(octets: &[u8]) -> Option<(Name, RType)>
    ensures { (set : RecordSet) → Spells octets.now set → result ≡ target_of set }
{
    match alias_in(body_of(octets)) {
        Some(alias) => Some((alias.0, type_in(behind_name(octets)))),
        None => None,
    }
}

/// Whether the set of these octets is an alias.
pub fn is_alias_in(octets: &[u8]) -> bool
    ensures { (set : RecordSet) → Spells octets.now set → result ≡ is_alias set.body }
{
    is_alias_body(body_of(octets))
}

/// Whether a body is that of an alias.
fn is_alias_body(octets: &[u8]) -> bool
    ensures { (what : Body) (rest : List ℕ) → octets.now ≡ body_octets what ++ rest
        → result ≡ is_alias what }
{
    match octets {
        [1, ..] => true,
        _ => false,
    }
}

/// Whether a body is that of an alias for which the health of its target's sets counts.
fn evaluates_in(octets: &[u8]) -> bool
    ensures { (what : Body) (rest : List ℕ) → IsBody what → octets.now ≡ body_octets what ++ rest
        → result ≡ evaluates what }
{
    match alias_in(octets) {
        Some((_, evaluate)) => evaluate,
        None => false,
    }
}

/// What stands behind a body.
fn behind_body(octets: &[u8]) -> &[u8]
    ensures { (what : Body) (rest : List ℕ) → IsBody what → octets.now ≡ body_octets what ++ rest
        → result.now ≡ rest }
{
    match count_in(octets) {
        Some(count) => behind_values(past(octets, BEFORE_VALUES), count as usize),
        None => behind_alias(octets),
    }
}

/// What stands behind so many values.
fn behind_values(octets: &[u8], count: usize) -> &[u8]
    ensures { (values : List Datum) (rest : List ℕ) → length values ≡ count
        → octets.now ≡ flat_map value_octets values ++ rest → result.now ≡ rest }
{
    let mut left = octets;
    for _ in 0..count {
        left = behind_value(left);
    }
    left
}

/// What stands behind a value.
fn behind_value(octets: &[u8]) -> &[u8]
    ensures { (value : Datum) (rest : List ℕ) → octets.now ≡ value_octets value ++ rest
        → result.now ≡ rest }
{
    match two_at(octets) {
        Ok((len, rest)) => past(rest, len as usize),
        Err(_) => octets,
    }
}
