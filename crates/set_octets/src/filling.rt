//! Sets as octets, filled into places that have room for them: the one encoder of sets.

ghost use Rattle.std.specs.Prelude.{◌≡◌, ◌+◌, ◌<◌, ◌≤◌, ◌^◌, ◌∷◌, [], ◌++◌, length, take, drop};
ghost use Rattle.std.specs.List.{flat_map};
ghost use Rattle.octets.specs.Numbers.{two_octets, four_octets};
ghost use Rattle.record_set.specs.Labels.{wire};
ghost use Rattle.set_octets.specs.Octets.{text_octets, continent_number, place_octets, role_number};
ghost use Rattle.set_octets.specs.Octets.{routing_octets, value_octets, head_octets, body_octets};
ghost use Rattle.set_octets.specs.Octets.{check_octets, set_octets, most_octets};

use crate::lengths::set_len;
use octets::{four_octets, put_at, two_octets};
use record_set::{Body, Continent, Name, Place, RData, RecordSet, Role, Routing};

/// Fills a set's octets into a place, and says where they end. All else stays.
pub fn fill_set(set: &RecordSet, into: &mut [u8], at: usize) -> usize
    requires short { length (set_octets set.now) ≤ most_octets }
    requires room { at + length (set_octets set.now) ≤ length into.old }
    ensures filled { into.new ≡ take at into.old ++ set_octets set.now ++ drop result into.old }
    ensures end { result ≡ at + length (set_octets set.now) }
{
    let end = at + set_len(set);
    fill_whole(set, &mut into[at..end]);
    end
}

/// Fills a set's octets into a place of their size.
fn fill_whole(set: &RecordSet, into: &mut [u8])
    requires short { length (set_octets set.now) ≤ most_octets }
    requires size { length into.old ≡ length (set_octets set.now) }
    ensures { into.new ≡ set_octets set.now }
{
    let at = put_head(into, set);
    let at = put_body(into, at, &set.body);
    put_check(into, at, set.check);
}

/// Writes what stands before a set's body to the front, and says where it ends.
fn put_head(buffer: &mut [u8], set: &RecordSet) -> usize
    requires room { length (head_octets set.now) ≤ length buffer.old }
    ensures end { result ≡ length (head_octets set.now) }
    ensures written { take result buffer.new ≡ head_octets set.now }
{
    let at = put_name(buffer, 0, &set.name);
    let at = put(buffer, at, &two_octets(set.rtype.number()));
    put_routing(buffer, at, &set.routing)
}

/// Writes a piece to a place, and says where it ends.
fn put(buffer: &mut [u8], at: usize, piece: &[u8]) -> usize
    requires { at + length piece.now ≤ length buffer.old }
    ensures end { result ≡ at + length piece.now }
    ensures written { take result buffer.new ≡ take at buffer.old ++ piece.now }
{
    put_at(buffer, at, piece);
    at + piece.len()
}

/// Writes a name's octets on the wire.
fn put_name(buffer: &mut [u8], at: usize, name: &Name) -> usize
    requires { at + length (wire name.now) ≤ length buffer.old }
    ensures end { result ≡ at + length (wire name.now) }
    ensures written { take result buffer.new ≡ take at buffer.old ++ wire name.now }
{
    put(buffer, at, name.octets())
}

/// Writes a text behind its length.
fn put_text(buffer: &mut [u8], at: usize, text: &[u8]) -> usize
    requires short { length text.now < 256 }
    requires room { at + length (text_octets text.now) ≤ length buffer.old }
    ensures end { result ≡ at + length (text_octets text.now) }
    ensures written { take result buffer.new ≡ take at buffer.old ++ text_octets text.now }
{
    let at = put(buffer, at, &[text.len() as u8]);
    put(buffer, at, text)
}

/// Writes a policy.
fn put_routing(buffer: &mut [u8], at: usize, routing: &Routing) -> usize
    requires { at + length (routing_octets routing.now) ≤ length buffer.old }
    ensures end { result ≡ at + length (routing_octets routing.now) }
    ensures written { take result buffer.new ≡ take at buffer.old ++ routing_octets routing.now }
{
    match routing {
        Routing::Simple => put(buffer, at, &[0]),
        Routing::Weighted(ident, weight) => {
            let at = put(buffer, at, &[1]);
            let at = put_text(buffer, at, ident.bytes());
            put(buffer, at, &[*weight])
        }
        Routing::Failover(ident, role) => {
            let at = put(buffer, at, &[2]);
            let at = put_text(buffer, at, ident.bytes());
            put(buffer, at, &[role_number(*role)])
        }
        Routing::Geolocation(ident, place) => {
            let at = put(buffer, at, &[3]);
            let at = put_text(buffer, at, ident.bytes());
            put_place(buffer, at, place)
        }
        Routing::Latency(ident, region) => {
            let at = put(buffer, at, &[4]);
            let at = put_text(buffer, at, ident.bytes());
            put_text(buffer, at, region.bytes())
        }
        Routing::Multivalue(ident) => {
            let at = put(buffer, at, &[5]);
            put_text(buffer, at, ident.bytes())
        }
        Routing::Cidr(ident, collection, location) => {
            let at = put(buffer, at, &[6]);
            let at = put_text(buffer, at, ident.bytes());
            let at = put(buffer, at, &four_octets(*collection));
            put_text(buffer, at, location.bytes())
        }
    }
}

/// Writes a place of the earth.
fn put_place(buffer: &mut [u8], at: usize, place: &Place) -> usize
    requires { at + length (place_octets place.now) ≤ length buffer.old }
    ensures end { result ≡ at + length (place_octets place.now) }
    ensures written { take result buffer.new ≡ take at buffer.old ++ place_octets place.now }
{
    match place {
        Place::Continent(continent) => put(buffer, at, &[1, continent_number(*continent)]),
        Place::Country([a, b]) => put(buffer, at, &[2, *a, *b]),
        Place::Subdivision([a, b], part) => {
            let at = put(buffer, at, &[3, *a, *b]);
            put_text(buffer, at, part.bytes())
        }
        Place::Anywhere => put(buffer, at, &[4]),
    }
}

/// Writes what a set answers.
fn put_body(buffer: &mut [u8], at: usize, body: &Body) -> usize
    requires room { at + length (body_octets body.now) ≤ length buffer.old }
    requires short { length (body_octets body.now) ≤ most_octets }
    ensures end { result ≡ at + length (body_octets body.now) }
    ensures written { take result buffer.new ≡ take at buffer.old ++ body_octets body.now }
{
    match body {
        Body::Values { ttl, values } => {
            let at = put(buffer, at, &[0]);
            let at = put(buffer, at, &four_octets(*ttl));
            let at = put(buffer, at, &two_octets(values.len() as u16));
            put_values(buffer, at, values.as_slice())
        }
        Body::Alias { target, evaluate } => {
            let at = put(buffer, at, &[1]);
            let at = put_name(buffer, at, target);
            put(buffer, at, &[u8::from(*evaluate)])
        }
    }
}

/// Writes values, each behind the number of its octets.
fn put_values(buffer: &mut [u8], at: usize, values: &[RData]) -> usize
    requires { at + length (flat_map value_octets values.now) ≤ length buffer.old }
    ensures end { result ≡ at + length (flat_map value_octets values.now) }
    ensures written { take result buffer.new
        ≡ take at buffer.old ++ flat_map value_octets values.now }
{
    let mut end = at;
    for value in values {
        end = put_value(buffer, end, value);
    }
    end
}

/// Writes a value behind the number of its octets.
fn put_value(buffer: &mut [u8], at: usize, value: &RData) -> usize
    requires { at + length (value_octets value.now) ≤ length buffer.old }
    ensures end { result ≡ at + length (value_octets value.now) }
    ensures written { take result buffer.new ≡ take at buffer.old ++ value_octets value.now }
{
    let wire = value.wire();
    let at = put(buffer, at, &two_octets(wire.len() as u16));
    put(buffer, at, wire)
}

/// Writes the number of a check, where there is one.
fn put_check(buffer: &mut [u8], at: usize, check: Option<u32>) -> usize
    requires { at + length (check_octets check) ≤ length buffer.old }
    ensures end { result ≡ at + length (check_octets check) }
    ensures written { take result buffer.new ≡ take at buffer.old ++ check_octets check }
{
    match check {
        None => put(buffer, at, &[0]),
        Some(number) => {
            let at = put(buffer, at, &[1]);
            put(buffer, at, &four_octets(number))
        }
    }
}

/// The number of a continent.
fn continent_number(continent: Continent) -> u8
    ensures { result ≡ continent_number continent }
{
    match continent {
        Continent::Af => 1,
        Continent::An => 2,
        Continent::As => 3,
        Continent::Eu => 4,
        Continent::Na => 5,
        Continent::Oc => 6,
        Continent::Sa => 7,
    }
}

/// The number of a role.
fn role_number(role: Role) -> u8
    ensures { result ≡ role_number role }
{
    match role {
        Role::Primary => 1,
        Role::Secondary => 2,
    }
}
