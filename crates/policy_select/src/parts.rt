//! What a set says by the policy of the first one of its group, told where it stands among the
//! octets of the set: neither the identifier nor the rest of the policy is copied. A set of another
//! policy counts as the first one does.

ghost use Rattle.std.specs.Prelude.{◌≡◌, ◌≤◌, ◌∷◌, [], ◌++◌, ℕ, IfSome, IsTrue, List, length};
ghost use Rattle.std.specs.Prelude.{drop, take, ◌+◌};
ghost use Rattle.std.specs.Option.{unwrap_or};
ghost use Rattle.answer_model.specs.Policies.{location_of, place_of, region_of, role_of, weight_of};
ghost use Rattle.routing.specs.Texts.{IsLocation, IsRegion, IsSubdivision};
ghost use Rattle.routing.specs.declared.policies.Continent.{Continent};
ghost use Rattle.routing.specs.declared.policies.Place.{Place};
ghost use Rattle.routing.specs.declared.policies.Place.TheVariants.{Country, Subdivision};
ghost use Rattle.routing.specs.declared.policies.Role.{Role};
ghost use Rattle.routing.specs.declared.policies.Routing.{Routing};
ghost use Rattle.routing.specs.declared.policies.Routing.TheVariants as policy;
ghost use Rattle.policy_select.specs.Nearby.{IsOtherCountry};
ghost use Rattle.zone_table.specs.Octets.{IsSpelledRouting, continent_number, place_octets};
ghost use Rattle.zone_table.specs.Octets.{role_number, routing_octets, text_octets};
ghost use Rattle.zone_table.specs.SetsOfSetReading.{IsPlace, IsRouting};

use crate::near::code_number;
use answer_model::locations_are_names;
use octets::{behind, front};
use routing::{Continent, Place, Region, Role, Routing};
use zone_table::{Ident, behind_text, fields_are_read, sub_at};

/// Whether a policy at the front is the simple one.
pub(crate) fn is_simple_in(octets: &[u8]) -> bool
    ensures simple { (routing : Routing) (rest : List ℕ) → octets.now ≡ routing_octets routing ++ rest
        → IsTrue result → routing ≡ policy.Simple }
    ensures sure { (rest : List ℕ) → octets.now ≡ routing_octets policy.Simple ++ rest → IsTrue result }
{
    matches!(octets, [0, ..])
}

/// How many octets the identifier has of a policy of this kind that begins with these, where they
/// tell it.
#[inline(always)]
pub(crate) fn ident_size(octets: &[u8], kind: u8) -> Option<u8>
    ensures { (all : List ℕ) (n : ℕ) → octets.now ≡ take n all
        → IfSome result (λ size. take 2 all ≡ kind ∷ size ∷ []) }
{
    match octets {
        [first, size, ..] if *first == kind => Some(*size),
        _ => None,
    }
}

/// What stands behind the identifier, of so many octets, of a policy of which the beginning is there
/// in two parts, one behind the other: up to the end of the part in which it begins.
#[inline(always)]
pub(crate) fn behind_ident<'a>(octets: &'a [u8], next: &'a [u8], size: u8) -> &'a [u8]
    ensures { (all : List ℕ) (n : ℕ) → octets.now ++ next.now ≡ take n all
        → (cut : ℕ) × (result.now ≡ take cut (drop (size + 2) all)) }
{
    let place = usize::from(size) + 2;
    if place < octets.len() {
        return behind(octets, place);
    }
    let place = place - octets.len();
    if place > next.len() {
        return &[];
    }
    behind(next, place)
}

/// The octet that stands so far behind the front.
#[inline(always)]
pub(crate) fn octet_behind(octets: &[u8], at: u8) -> Option<u8>
    ensures { (ident rest : List ℕ) (octet n : ℕ) → at ≡ length ident
        → octets.now ≡ take n (ident ++ octet ∷ rest) → IfSome result (λ o. o ≡ octet) }
{
    match octets.get(usize::from(at)) {
        Some(octet) => Some(*octet),
        None => None,
    }
}

/// The role whose number stands so far behind the front.
#[inline(always)]
pub(crate) fn role_behind(octets: &[u8], at: u8) -> Option<Role>
    ensures { (ident rest : List ℕ) (role : Role) (n : ℕ) → at ≡ length ident
        → octets.now ≡ take n (ident ++ role_number role ∷ rest)
        → IfSome result (λ r. r ≡ role) }
{
    match octet_behind(octets, at) {
        Some(1) => Some(Role::Primary),
        Some(_) => Some(Role::Secondary),
        None => None,
    }
}

/// The place at the front, where all of it is there.
#[inline(always)]
pub(crate) fn place_whole(octets: &[u8]) -> Option<Place>
    ensures { (rest : List ℕ) (place : Place) (n : ℕ) → IsPlace place
        → octets.now ≡ take n (place_octets place ++ rest) → IfSome result (λ p. p ≡ place) }
{
    let size = place_size(octets);
    if octets.len() < size {
        return None;
    }
    Some(place_at(octets))
}

/// The most octets of a place that begins as these do.
#[inline(always)]
fn place_size(octets: &[u8]) -> usize
    ensures { (rest : List ℕ) (place : Place) (n : ℕ) → IsPlace place
        → octets.now ≡ take n (place_octets place ++ rest)
        → length (place_octets place) ≤ result }
{
    match octets {
        [1, ..] => 2,
        [2, ..] => 3,
        [4, ..] => 1,
        _ => 7,
    }
}

/// Whether a policy that begins here is for a country other than the one of this number. It may end
/// behind the octets; where its country does, this isn't told.
#[inline(always)]
pub(crate) fn is_elsewhere_in(octets: &[u8], country: u32) -> bool
    ensures { (routing : Routing) (rest : List ℕ) (n : ℕ) → IsRouting routing
        → octets.now ≡ take n (routing_octets routing ++ rest) → IsTrue result
        → (first : Place) → IsOtherCountry country (unwrap_or (place_of routing) first) }
{
    match octets {
        [3, size, others @ ..] => is_other_country(others, *size, country),
        _ => false,
    }
}

/// Whether a place that stands so far behind the front is a country other than the one of this
/// number.
#[inline(always)]
pub(crate) fn is_other_country(octets: &[u8], at: u8, country: u32) -> bool
    ensures { (ident rest : List ℕ) (place : Place) (n : ℕ) → IsPlace place → at ≡ length ident
        → octets.now ≡ take n (ident ++ (place_octets place ++ rest)) → IsTrue result
        → IsOtherCountry country place }
{
    let at = usize::from(at);
    if octets.len() < at + 3 {
        return false;
    }
    is_other_at(octets, at, country)
}

/// The same where so much is there as a country takes.
#[inline(always)]
fn is_other_at(octets: &[u8], at: usize, country: u32) -> bool
    requires within { at + 3 ≤ length octets.now }
    ensures { (ident rest : List ℕ) (place : Place) (n : ℕ) → IsPlace place → at ≡ length ident
        → octets.now ≡ take n (ident ++ (place_octets place ++ rest)) → IsTrue result
        → IsOtherCountry country place }
{
    octets[at] == 2 && code_number(octets[at + 1], octets[at + 2]) != country
}

/// Whether a place behind the identifier, of so many octets, of a policy of which the beginning is
/// there in two parts, one behind the other, is a country other than the one of this number. Where it
/// goes over the end of a part this isn't told.
#[inline(always)]
pub(crate) fn is_other_behind(octets: &[u8], next: &[u8], size: u8, country: u32) -> bool
    ensures { (all rest : List ℕ) (place : Place) (n : ℕ) → octets.now ++ next.now ≡ take n all
        → IsPlace place → drop (size + 2) all ≡ place_octets place ++ rest → IsTrue result
        → IsOtherCountry country place }
{
    let place = usize::from(size) + 2;
    if place + 3 <= octets.len() {
        return is_other_at(octets, place, country);
    }
    if place < octets.len() {
        return false;
    }
    let place = place - octets.len();
    if place + 3 > next.len() {
        return false;
    }
    is_other_at(next, place, country)
}

/// Whether the place at the front is the country of this code.
#[inline(always)]
pub(crate) fn is_country_in(octets: &[u8], code: &[u8; 2]) -> bool
    ensures { (rest : List ℕ) (place : Place) (n : ℕ) → IsPlace place
        → octets.now ≡ take n (place_octets place ++ rest) → IsTrue result
        → place ≡ Country code.now }
{
    match octets {
        [2, x, y, ..] => *x == code[0] && *y == code[1],
        _ => false,
    }
}

/// The weight in a policy at the front.
pub(crate) fn weight_in(octets: &[u8], first: u8) -> u8
    ensures { (routing : Routing) (rest : List ℕ) → octets.now ≡ routing_octets routing ++ rest
        → result ≡ unwrap_or (weight_of routing) first }
{
    match octets {
        [1, others @ ..] => octet_in(behind_text(others)),
        _ => first,
    }
}

/// The octet at the front.
pub(crate) fn octet_in(octets: &[u8]) -> u8
    ensures { (octet : ℕ) (rest : List ℕ) → octets.now ≡ octet ∷ rest → result ≡ octet }
{
    match octets {
        [octet, ..] => *octet,
        [] => 0,
    }
}

/// The role in a policy at the front.
pub(crate) fn role_in(octets: &[u8], first: Role) -> Role
    ensures { (routing : Routing) (rest : List ℕ) → octets.now ≡ routing_octets routing ++ rest
        → result ≡ unwrap_or (role_of routing) first }
{
    match octets {
        [2, others @ ..] => role_at(behind_text(others)),
        _ => first,
    }
}

/// The role of the number at the front.
pub(crate) fn role_at(octets: &[u8]) -> Role
    ensures { (role : Role) (rest : List ℕ) → octets.now ≡ role_number role ∷ rest
        → result ≡ role }
{
    match octets {
        [1, ..] => Role::Primary,
        _ => Role::Secondary,
    }
}

/// The place in a policy at the front.
pub(crate) fn place_in(octets: &[u8], first: &Place) -> Place
    ensures { (routing : Routing) (rest : List ℕ) → IsRouting routing
        → octets.now ≡ routing_octets routing ++ rest
        → result ≡ unwrap_or (place_of routing) first.now }
{
    match octets {
        [3, others @ ..] => place_at(behind_text(others)),
        _ => *first,
    }
}

/// The place at the front.
#[inline(always)]
pub(crate) fn place_at(octets: &[u8]) -> Place
    ensures { (place : Place) (rest : List ℕ) → IsPlace place
        → octets.now ≡ place_octets place ++ rest → result ≡ place }
{
    match octets {
        [1, number, ..] => Place::Continent(continent_of(*number)),
        [2, x, y, ..] => Place::Country([*x, *y]),
        [3, x, y, others @ ..] => subdivision_of([*x, *y], others),
        _ => Place::Anywhere,
    }
}

/// The continent of a number.
fn continent_of(number: u8) -> Continent
    ensures { (continent : Continent) → number ≡ continent_number continent → result ≡ continent }
{
    match number {
        1 => Continent::Af,
        2 => Continent::An,
        3 => Continent::As,
        4 => Continent::Eu,
        5 => Continent::Na,
        6 => Continent::Oc,
        _ => Continent::Sa,
    }
}

/// The subdivision of a country whose code stands at the front.
fn subdivision_of(country: [u8; 2], octets: &[u8]) -> Place
    ensures { (code rest : List ℕ) → IsSubdivision code → octets.now ≡ text_octets code ++ rest
        → result ≡ Subdivision country code }
{
    fields_are_read();
    match sub_at(octets) {
        Ok((code, _)) => Place::Subdivision(country, code),
        Err(_) => Place::Anywhere,
    }
}

/// The region in a policy at the front.
pub(crate) fn region_in(octets: &[u8], first: &Region) -> Region
    ensures { (routing : Routing) (rest : List ℕ) → IsRouting routing
        → octets.now ≡ routing_octets routing ++ rest
        → result ≡ unwrap_or (region_of routing) first.now }
{
    match octets {
        [4, others @ ..] => region_or(behind_text(others), first),
        _ => *first,
    }
}

/// The region at the front, where all of it is there.
#[inline(always)]
pub(crate) fn region_whole(octets: &[u8]) -> Option<Region>
    ensures { (region rest : List ℕ) (n : ℕ) → IsRegion region
        → octets.now ≡ take n (text_octets region ++ rest) → IfSome result (λ r. r ≡ region) }
{
    if !has_text(octets) {
        return None;
    }
    Region::new(text_front(octets))
}

/// Whether all of the text at the front is there.
#[inline(always)]
pub(crate) fn has_text(octets: &[u8]) -> bool
    ensures { (text rest : List ℕ) (n : ℕ) → octets.now ≡ take n (text_octets text ++ rest)
        → IsTrue result → length (text_octets text) ≤ length octets.now }
{
    match octets {
        [size, ..] => usize::from(*size) < octets.len(),
        [] => false,
    }
}

/// The region at the front, where there is one.
fn region_or(octets: &[u8], other: &Region) -> Region
    ensures { (region rest : List ℕ) → IsRegion region → octets.now ≡ text_octets region ++ rest
        → result ≡ region }
{
    match Region::new(text_front(octets)) {
        Some(region) => region,
        None => *other,
    }
}

/// The text at the front, behind its length.
#[inline(always)]
pub(crate) fn text_front(octets: &[u8]) -> &[u8]
    ensures { (text rest : List ℕ) → octets.now ≡ text_octets text ++ rest → result.now ≡ text }
{
    match octets {
        [size, others @ ..] => front(others, usize::from(*size).min(others.len())),
        [] => octets,
    }
}

/// The location of a set of IP-based routing, which has a spelling.
pub(crate) fn location_or(routing: &Routing, first: &Ident) -> Ident
    requires { IsSpelledRouting routing.now }
    ensures { result ≡ unwrap_or (location_of routing.now) first.now }
{
    match routing {
        Routing::Cidr(_, _, location) => name_of(location),
        _ => *first,
    }
}

/// The location that a set names, as collections name it.
pub(crate) fn name_of(location: &routing::Ident) -> Ident
    requires { IsLocation location.now }
    ensures { result ≡ location.now }
{
    locations_are_names();
    match Ident::new(location.bytes()) {
        Some(name) => name,
        None => unreachable!(),
    }
}
