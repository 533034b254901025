//! The members of a policy, each with the comma that parts it from its neighbour.

ghost use Rattle.std.specs.Prelude.{◌≡◌, ◌+◌, ◌≤◌, ◌++◌, ◌∷◌, [], length, Some, vec_capacity, vec_len};
ghost use Rattle.line_faults.specs.Texts.{text_of};
ghost use Rattle.line_faults.specs.declared.member.Member.TheVariants as m;
ghost use Rattle.line_words.specs.Words.{code_of};
ghost use Rattle.record_set.specs.Sets.{ident_of};
ghost use Rattle.reply_words.specs.Json.{count, field, object_of};
ghost use Rattle.reply_words.specs.Sets.{place_fields, role_text};
ghost use Rattle.list_writing.specs.Pieces.{cidr_data, cidr_object, early_policy, failover_data};
ghost use Rattle.list_writing.specs.Pieces.{ident_data, led, multivalue_data, place_data};
ghost use Rattle.list_writing.specs.Pieces.{region_data, trailed, weight_data};
ghost use Rattle.routing.specs.declared.policies.Place.TheVariants as place;
ghost use Rattle.serde_json.specs.Data.{string};
ghost use Rattle.serde_json.specs.Written.{compact_text};

use json_text::{put, put_number, put_quoted};
use record_set::ident_of;
use reply_words::put_id;
use routing::{Continent, Place, Role, Routing};

/// Appends the members that stand before that of the health check: CidrRoutingConfig, Failover or
/// GeoLocation.
pub(crate) fn put_early(policy: &Routing, into: &mut Vec<u8>)
    requires { vec_len into.old + 1300 ≤ vec_capacity into.old }
    ensures text { into.new.items ≡ into.old.items ++ early_policy policy.now }
    ensures len { vec_len into.new ≤ vec_len into.old + 1300 }
    ensures room { vec_capacity into.old ≤ vec_capacity into.new }
{
    match policy {
        Routing::Cidr(_, collection, location) => put_cidr(*collection, location.bytes(), into),
        Routing::Failover(_, role) => put_role(*role, into),
        Routing::Geolocation(_, place) => put_place(place, into),
        _ => {}
    }
}

/// Appends MultiValueAnswer, where it is the policy.
#[tactic(auto, unfolding(json::specs::Print::escape_byte))]
pub(crate) fn put_multivalue(policy: &Routing, into: &mut Vec<u8>)
    requires { vec_len into.old + 64 ≤ vec_capacity into.old }
    ensures text { into.new.items
        ≡ into.old.items ++ led (text_of m.MultiValueAnswer) (multivalue_data policy.now) }
    ensures len { vec_len into.new ≤ vec_len into.old + 64 }
    ensures room { vec_capacity into.old ≤ vec_capacity into.new }
{
    match policy {
        Routing::Multivalue(_) => put(b"\"MultiValueAnswer\":true,", into),
        _ => {}
    }
}

/// Appends Region, where it is the policy.
pub(crate) fn put_latency(policy: &Routing, into: &mut Vec<u8>)
    requires { vec_len into.old + 300 ≤ vec_capacity into.old }
    ensures text { into.new.items
        ≡ into.old.items ++ trailed (text_of m.Region) (region_data policy.now) }
    ensures len { vec_len into.new ≤ vec_len into.old + 300 }
    ensures room { vec_capacity into.old ≤ vec_capacity into.new }
{
    match policy {
        Routing::Latency(_, region) => put_region(region.bytes(), into),
        _ => {}
    }
}

/// Appends SetIdentifier, where the policy has an identifier.
pub(crate) fn put_ident_of(policy: &Routing, into: &mut Vec<u8>)
    requires { vec_len into.old + 800 ≤ vec_capacity into.old }
    ensures text { into.new.items
        ≡ into.old.items ++ trailed (text_of m.SetIdentifier) (ident_data (ident_of policy.now)) }
    ensures len { vec_len into.new ≤ vec_len into.old + 800 }
    ensures room { vec_capacity into.old ≤ vec_capacity into.new }
{
    match ident_of(policy) {
        Some(ident) => put_ident(ident.bytes(), into),
        None => {}
    }
}

/// Appends Weight, where it is the policy.
pub(crate) fn put_weighted(policy: &Routing, into: &mut Vec<u8>)
    requires { vec_len into.old + 64 ≤ vec_capacity into.old }
    ensures text { into.new.items
        ≡ into.old.items ++ trailed (text_of m.Weight) (weight_data policy.now) }
    ensures len { vec_len into.new ≤ vec_len into.old + 64 }
    ensures room { vec_capacity into.old ≤ vec_capacity into.new }
{
    match policy {
        Routing::Weighted(_, weight) => put_weight(*weight, into),
        _ => {}
    }
}

/// Appends CidrRoutingConfig.
fn put_cidr(collection: u32, location: &[u8], into: &mut Vec<u8>)
    requires location { length location.now ≤ 128 }
    requires room { vec_len into.old + 1300 ≤ vec_capacity into.old }
    ensures text { into.new.items ≡ into.old.items
        ++ led (text_of m.CidrRoutingConfig) (Some (cidr_object collection location.now)) }
    ensures len { vec_len into.new ≤ vec_len into.old + 1300 }
    ensures room { vec_capacity into.old ≤ vec_capacity into.new }
{
    put(b"\"CidrRoutingConfig\":", into);
    put_location(collection, location, into);
    put(b",", into);
}

/// Appends the object of a location in a collection.
fn put_location(collection: u32, location: &[u8], into: &mut Vec<u8>)
    requires location { length location.now ≤ 128 }
    requires room { vec_len into.old + 1200 ≤ vec_capacity into.old }
    ensures text { into.new.items
        ≡ into.old.items ++ compact_text (cidr_object collection location.now) }
    ensures len { vec_len into.new ≤ vec_len into.old + 1200 }
    ensures room { vec_capacity into.old ≤ vec_capacity into.new }
{
    put(b"{\"CollectionId\":", into);
    put_id(b'c', collection, into);
    put(b",\"LocationName\":", into);
    put_quoted(location, into);
    put(b"}", into);
}

/// Appends Failover.
#[tactic(auto, unfolding(json::specs::Print::escape_byte))]
fn put_role(role: Role, into: &mut Vec<u8>)
    requires { vec_len into.old + 64 ≤ vec_capacity into.old }
    ensures text { into.new.items ≡ into.old.items
        ++ led (text_of m.Failover) (Some (string (role_text role))) }
    ensures len { vec_len into.new ≤ vec_len into.old + 64 }
    ensures room { vec_capacity into.old ≤ vec_capacity into.new }
{
    match role {
        Role::Primary => put(b"\"Failover\":\"PRIMARY\",", into),
        Role::Secondary => put(b"\"Failover\":\"SECONDARY\",", into),
    }
}

/// Appends GeoLocation.
fn put_place(place: &Place, into: &mut Vec<u8>)
    requires { vec_len into.old + 300 ≤ vec_capacity into.old }
    ensures text { into.new.items ≡ into.old.items
        ++ led (text_of m.GeoLocation) (Some (object_of (place_fields place.now))) }
    ensures len { vec_len into.new ≤ vec_len into.old + 300 }
    ensures room { vec_capacity into.old ≤ vec_capacity into.new }
{
    put(b"\"GeoLocation\":", into);
    put_place_object(place, into);
    put(b",", into);
}

/// Appends the object of a place.
#[tactic(auto, unfolding(json::specs::Print::escape_byte))]
fn put_place_object(place: &Place, into: &mut Vec<u8>)
    requires { vec_len into.old + 200 ≤ vec_capacity into.old }
    ensures text { into.new.items
        ≡ into.old.items ++ compact_text (object_of (place_fields place.now)) }
    ensures len { vec_len into.new ≤ vec_len into.old + 200 }
    ensures room { vec_capacity into.old ≤ vec_capacity into.new }
{
    match place {
        Place::Continent(continent) => put_continent(code_of(*continent), into),
        Place::Country(country) => put_country(country, into),
        Place::Subdivision(country, part) => put_part(country, part.bytes(), into),
        Place::Anywhere => put(b"{\"CountryCode\":\"*\"}", into),
    }
}

/// Appends the object of the continent of a code.
fn put_continent(code: &[u8], into: &mut Vec<u8>)
    requires code { length code.now ≤ 2 }
    requires room { vec_len into.old + 200 ≤ vec_capacity into.old }
    ensures text { into.new.items ≡ into.old.items
        ++ compact_text (object_of (field m.ContinentCode (string code.now) ∷ [])) }
    ensures len { vec_len into.new ≤ vec_len into.old + 200 }
    ensures room { vec_capacity into.old ≤ vec_capacity into.new }
{
    put(b"{\"ContinentCode\":", into);
    put_quoted(code, into);
    put(b"}", into);
}

/// The code of a continent.
fn code_of(continent: Continent) -> &'static [u8]
    ensures text { result.now ≡ code_of continent }
    ensures short { length result.now ≤ 2 }
{
    match continent {
        Continent::Af => b"AF",
        Continent::An => b"AN",
        Continent::As => b"AS",
        Continent::Eu => b"EU",
        Continent::Na => b"NA",
        Continent::Oc => b"OC",
        Continent::Sa => b"SA",
    }
}

/// Appends the object of a country.
fn put_country(country: &[u8; 2], into: &mut Vec<u8>)
    requires { vec_len into.old + 200 ≤ vec_capacity into.old }
    ensures text { into.new.items ≡ into.old.items
        ++ compact_text (object_of (place_fields (place.Country country.now))) }
    ensures len { vec_len into.new ≤ vec_len into.old + 200 }
    ensures room { vec_capacity into.old ≤ vec_capacity into.new }
{
    put(b"{\"CountryCode\":", into);
    put_quoted(country, into);
    put(b"}", into);
}

/// Appends the object of a subdivision of a country.
fn put_part(country: &[u8; 2], part: &[u8], into: &mut Vec<u8>)
    requires part { length part.now ≤ 3 }
    requires room { vec_len into.old + 200 ≤ vec_capacity into.old }
    ensures text { into.new.items ≡ into.old.items
        ++ compact_text (object_of (place_fields (place.Subdivision country.now part.now))) }
    ensures len { vec_len into.new ≤ vec_len into.old + 200 }
    ensures room { vec_capacity into.old ≤ vec_capacity into.new }
{
    put(b"{\"CountryCode\":", into);
    put_quoted(country, into);
    put(b",\"SubdivisionCode\":", into);
    put_quoted(part, into);
    put(b"}", into);
}

/// Appends Region.
fn put_region(region: &[u8], into: &mut Vec<u8>)
    requires region { length region.now ≤ 32 }
    requires room { vec_len into.old + 300 ≤ vec_capacity into.old }
    ensures text { into.new.items ≡ into.old.items
        ++ trailed (text_of m.Region) (Some (string region.now)) }
    ensures len { vec_len into.new ≤ vec_len into.old + 300 }
    ensures room { vec_capacity into.old ≤ vec_capacity into.new }
{
    put(b",\"Region\":", into);
    put_quoted(region, into);
}

/// Appends SetIdentifier.
fn put_ident(ident: &[u8], into: &mut Vec<u8>)
    requires ident { length ident.now ≤ 128 }
    requires room { vec_len into.old + 800 ≤ vec_capacity into.old }
    ensures text { into.new.items ≡ into.old.items
        ++ trailed (text_of m.SetIdentifier) (Some (string ident.now)) }
    ensures len { vec_len into.new ≤ vec_len into.old + 800 }
    ensures room { vec_capacity into.old ≤ vec_capacity into.new }
{
    put(b",\"SetIdentifier\":", into);
    put_quoted(ident, into);
}

/// Appends Weight.
fn put_weight(weight: u8, into: &mut Vec<u8>)
    requires { vec_len into.old + 64 ≤ vec_capacity into.old }
    ensures text { into.new.items ≡ into.old.items
        ++ trailed (text_of m.Weight) (Some (count weight)) }
    ensures len { vec_len into.new ≤ vec_len into.old + 64 }
    ensures room { vec_capacity into.old ≤ vec_capacity into.new }
{
    put(b",\"Weight\":", into);
    put_number(weight as u64, into);
}
