//! The parts of a set, read from where they stand among its octets.

ghost use Rattle.std.specs.Prelude.{◌≡◌, ◌+◌, ◌<◌, ◌++◌, ℕ, List, Option, Some, drop, length};
ghost use Rattle.std.specs.Prelude.{map, slice_get};
ghost use Rattle.std.specs.List.{flat_map};
ghost use Rattle.set_parts.specs.Labels.{wire};
ghost use Rattle.set_parts.specs.Names.{IsName};
ghost use Rattle.octets.specs.Numbers.{two_octets};
ghost use Rattle.set_parts.specs.Datum.{Datum};
ghost use Rattle.set_parts.specs.Types.{number_of};
ghost use Rattle.set_parts.specs.RTypeRecord.{RType};
ghost use Rattle.set_parts.specs.BodyRecord.{Body};
ghost use Rattle.set_parts.specs.RecordSetRecord.{RecordSet};
ghost use Rattle.set_parts.specs.RoutingRecord.{Routing};
ghost use Rattle.set_parts.specs.Octets.{IsSpelledRouting, body_octets, check_octets};
ghost use Rattle.set_parts.specs.Octets.{routing_octets, value_octets};
ghost use Rattle.set_parts.specs.Sets.{IsBody, IsRouting};
ghost use Rattle.set_scratch.specs.Bodies.{alias_of, ttl_of};
ghost use Rattle.set_scratch.specs.Kept.{starts_of};
ghost use Rattle.set_scratch.specs.Spelling.{Spells};

use octets::long_at;
use set_parts::{
    Name, RType, Routing, base_fields_are_read, check_at, flag_at, name_at, parts, parts_are_read,
    past, routing_at, two_at, type_and_rest,
};

/// The name of a set.
pub(crate) fn name_of(octets: &[u8]) -> Name
    ensures { (set : RecordSet) → Spells octets.now set → result ≡ set.name }
{
    name_in_front(octets)
}

/// The name at the front.
fn name_in_front(octets: &[u8]) -> Name
    ensures { (labels : List (List ℕ)) (rest : List ℕ) → IsName labels
        → octets.now ≡ wire labels ++ rest → result ≡ labels }
{
    match Name::from_wire(octets) {
        Some((name, _)) => name,
        None => Name::root(),
    }
}

/// The type at the front.
pub(crate) fn type_in(octets: &[u8]) -> RType
    ensures { (rtype : RType) (rest : List ℕ) → octets.now ≡ two_octets (number_of rtype) ++ rest
        → result ≡ rtype }
{
    type_and_rest(octets).0
}

/// The routing policy at the front.
pub(crate) fn routing_in(octets: &[u8]) -> Routing
    ensures { (routing : Routing) (rest : List ℕ) → IsRouting routing → IsSpelledRouting routing
        → octets.now ≡ routing_octets routing ++ rest → result ≡ routing }
{
    parts_are_read();
    // Without the reader, whose answer is a copy of the largest policy.
    if let [0, ..] = octets {
        return Routing::Simple;
    }
    match routing_at(octets) {
        Ok((routing, _)) => routing,
        Err(_) => Routing::Simple,
    }
}

/// The target of an alias, and whether its health counts. None for values.
pub(crate) fn alias_in(octets: &[u8]) -> Option<(Name, bool)>
    ensures { (what : Body) (rest : List ℕ) → IsBody what → octets.now ≡ body_octets what ++ rest
        → result ≡ alias_of what }
{
    base_fields_are_read();
    let [1, target @ ..] = octets else {
        return None;
    };
    let Ok((target, rest)) = name_at(target) else {
        return None;
    };
    match flag_at(rest) {
        Ok((evaluate, _)) => Some((target, evaluate)),
        Err(_) => None,
    }
}

/// The time to live of values, and 0 of an alias.
pub(crate) fn ttl_in(octets: &[u8]) -> u32
    ensures { (what : Body) (rest : List ℕ) → octets.now ≡ body_octets what ++ rest
        → result ≡ ttl_of what }
{
    match octets {
        [0, _, _, _, _, ..] => long_at(octets, 1),
        _ => 0,
    }
}

/// The number of a check, where there is one.
pub(crate) fn check_in(octets: &[u8]) -> Option<u32>
    ensures { (check : Option ℕ) (rest : List ℕ) → octets.now ≡ check_octets check ++ rest
        → result ≡ check }
{
    parts_are_read();
    match check_at(octets) {
        Ok((check, _)) => check,
        Err(_) => None,
    }
}

/// The octets of the value whose place is one of these.
pub(crate) fn value_at<'a>(octets: &'a [u8], starts: &[u16], i: usize) -> &'a [u8]
    requires { i < length starts.now }
    ensures { (at : ℕ) (values : List Datum) (after : List ℕ) → starts.now ≡ starts_of at values
        → drop at octets.now ≡ flat_map value_octets values ++ after
        → slice_get (map (λ value. value.wire) values) i ≡ Some result.now }
{
    wire_in(past(octets, starts[i] as usize))
}

/// The octets of the value at the front, behind the number of these.
fn wire_in(octets: &[u8]) -> &[u8]
    ensures { (value : Datum) (rest : List ℕ) → octets.now ≡ value_octets value ++ rest
        → result.now ≡ value.wire }
{
    match two_at(octets) {
        Ok((len, rest)) => parts(rest, len as usize).0,
        Err(_) => octets,
    }
}
