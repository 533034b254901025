//! Which sets have a spelling.

ghost use Rattle.std.specs.Prelude.{◌≡◌, IsTrue, ◌↔◌};
ghost use Rattle.std.specs.List.{AllByRecursion};
ghost use Rattle.set_octets.specs.Octets.{AreCapitals, AreOfType, IsSpelledBody, IsSpelledPlace};
ghost use Rattle.set_octets.specs.Octets.{IsSpelledRouting, HasSpelling};

use crate::lengths::is_long;
use record_set::{Body, Place, RData, RType, RecordSet, Routing, is_location};

/// Whether a set has a spelling: its letters, its location, its time to live and its size are
/// within their bounds, and each value is of its type.
pub fn has_spelling(set: &RecordSet) -> bool
    ensures { IsTrue result ↔ HasSpelling set.now }
{
    is_spelled_routing(&set.routing)
        && is_spelled_body(&set.body)
        && are_of_type(set.rtype, &set.body)
        && !is_long(set)
}

/// Whether the letters of a policy's place are capital, and its location is one.
fn is_spelled_routing(routing: &Routing) -> bool
    ensures { IsTrue result ↔ IsSpelledRouting routing.now }
{
    match routing {
        Routing::Geolocation(_, place) => is_spelled_place(place),
        Routing::Cidr(_, _, location) => is_location(location.bytes()),
        _ => true,
    }
}

/// Whether the letters of a place are capital.
fn is_spelled_place(place: &Place) -> bool
    ensures { IsTrue result ↔ IsSpelledPlace place.now }
{
    match place {
        Place::Country(letters) => are_capitals(letters),
        Place::Subdivision(letters, _) => are_capitals(letters),
        _ => true,
    }
}

/// Whether both letters are A to Z.
fn are_capitals(letters: &[u8; 2]) -> bool
    ensures { IsTrue result ↔ AreCapitals letters.now }
{
    letters[0].is_ascii_uppercase() && letters[1].is_ascii_uppercase()
}

/// Whether a body's time to live and the number of its values are within their bounds.
fn is_spelled_body(body: &Body) -> bool
    ensures { IsTrue result ↔ IsSpelledBody body.now }
{
    match body {
        Body::Values { ttl, values } => *ttl < 1 << 31 && values.len() < 1 << 16,
        Body::Alias { .. } => true,
    }
}

/// Whether each value of a body is of the type.
fn are_of_type(rtype: RType, body: &Body) -> bool
    ensures { IsTrue result ↔ AreOfType rtype body.now }
{
    match body {
        Body::Values { values, .. } => each_of_type(rtype, values.as_slice()),
        Body::Alias { .. } => true,
    }
}

/// Whether each value is of the type.
fn each_of_type(rtype: RType, values: &[RData]) -> bool
    ensures { IsTrue result ↔ AllByRecursion (λ value. value.rtype ≡ rtype) values.now }
{
    for value in values {
        if !is_of_type(rtype, value) {
            return false;
        }
    }
    true
}

/// Whether a value is of the type.
fn is_of_type(rtype: RType, value: &RData) -> bool
    ensures { IsTrue result ↔ (value.now.rtype ≡ rtype) }
{
    value.rtype() == rtype
}
