//! How many octets a set has, and whether they are more than a set may have.

ghost use Rattle.std.specs.Prelude.{◌≡◌, ◌<◌, ◌≤◌, length, IsTrue, ◌↔◌};
ghost use Rattle.std.specs.List.{flat_map};
ghost use Rattle.record_set.specs.Labels.{wire};
ghost use Rattle.set_octets.specs.Octets.{place_octets, routing_octets, value_octets, head_octets};
ghost use Rattle.set_octets.specs.Octets.{body_octets, check_octets, set_octets, most_octets};

use record_set::{Body, Name, Place, RData, RecordSet, Routing};

/// The most octets of a set.
pub const MOST_OCTETS: usize = 65_536;

/// Whether a set has more octets than a set may have.
///
/// Values are counted only as far as there is room for them, so that no set is too long to count.
pub fn is_long(set: &RecordSet) -> bool
    ensures { IsTrue result ↔ (most_octets < length (set_octets set.now)) }
{
    let others = head_len(set) + check_len(set.check);
    is_long_body(&set.body, MOST_OCTETS - others)
}

/// How many octets a set has, which is not too long.
pub fn set_len(set: &RecordSet) -> usize
    requires short { length (set_octets set.now) ≤ most_octets }
    ensures { result ≡ length (set_octets set.now) }
{
    head_len(set) + body_len(&set.body) + check_len(set.check)
}

/// How many octets stand before a set's body.
pub fn head_len(set: &RecordSet) -> usize
    ensures exact { result ≡ length (head_octets set.now) }
    ensures few { result ≤ 520 }
{
    name_len(&set.name) + 2 + routing_len(&set.routing)
}

/// How many octets a body has.
fn body_len(body: &Body) -> usize
    requires { length (body_octets body.now) ≤ most_octets }
    ensures { result ≡ length (body_octets body.now) }
{
    match body {
        Body::Values { values, .. } => values_len(values.as_slice()) + 7,
        Body::Alias { target, .. } => name_len(target) + 2,
    }
}

/// How many octets values have, with those of their lengths.
fn values_len(values: &[RData]) -> usize
    requires { length (flat_map value_octets values.now) ≤ most_octets }
    ensures { result ≡ length (flat_map value_octets values.now) }
{
    let mut len = 0;
    for value in values {
        len += value_len(value);
    }
    len
}

/// Whether a body has more octets than there is room for.
fn is_long_body(body: &Body, room: usize) -> bool
    requires { 260 < room }
    ensures { IsTrue result ↔ (room < length (body_octets body.now)) }
{
    match body {
        Body::Values { values, .. } => are_long(values.as_slice(), room - 7),
        Body::Alias { target, .. } => name_len(target) + 2 > room,
    }
}

/// Whether values have more octets, with those of their lengths, than there is room for.
fn are_long(values: &[RData], room: usize) -> bool
    ensures { IsTrue result ↔ (room < length (flat_map value_octets values.now)) }
{
    let mut left = room;
    for value in values {
        let len = value_len(value);
        if left < len {
            return true;
        }
        left -= len;
    }
    false
}

/// How many octets a value has, with those of its length.
fn value_len(value: &RData) -> usize
    ensures exact { result ≡ length (value_octets value.now) }
    ensures few { result ≤ 4002 }
{
    value.wire().len() + 2
}

/// How many octets a name has on the wire.
fn name_len(name: &Name) -> usize
    ensures exact { result ≡ length (wire name.now) }
    ensures few { result ≤ 255 }
{
    name.octets().len()
}

/// How many octets a policy has.
fn routing_len(routing: &Routing) -> usize
    ensures exact { result ≡ length (routing_octets routing.now) }
    ensures few { result ≤ 263 }
{
    match routing {
        Routing::Simple => 1,
        Routing::Weighted(ident, _) | Routing::Failover(ident, _) => ident.bytes().len() + 3,
        Routing::Geolocation(ident, place) => ident.bytes().len() + 2 + place_len(place),
        Routing::Latency(ident, region) => ident.bytes().len() + region.bytes().len() + 3,
        Routing::Multivalue(ident) => ident.bytes().len() + 2,
        Routing::Cidr(ident, _, location) => ident.bytes().len() + location.bytes().len() + 7,
    }
}

/// How many octets a place has.
fn place_len(place: &Place) -> usize
    ensures exact { result ≡ length (place_octets place.now) }
    ensures few { result ≤ 7 }
{
    match place {
        Place::Continent(_) => 2,
        Place::Country(letters) => letters_len(letters) + 1,
        Place::Subdivision(letters, part) => letters_len(letters) + part.bytes().len() + 2,
        Place::Anywhere => 1,
    }
}

/// How many letters the code of a country has.
fn letters_len(letters: &[u8; 2]) -> usize
    ensures exact { result ≡ length letters.now }
    ensures two { result ≤ 2 }
{
    letters.len()
}

/// How many octets the number of a check has, where there is one.
fn check_len(check: Option<u32>) -> usize
    ensures exact { result ≡ length (check_octets check) }
    ensures few { result ≤ 5 }
{
    if check.is_some() { 5 } else { 1 }
}
