//! The first set that names a check, a collection or a location that isn't there.

ghost use Rattle.std.specs.Prelude.{◌≡◌, ◌∷◌, []};
ghost use Rattle.std.specs.List.{AllByRecursion, list_any};
ghost use Rattle.std.specs.Option.{option_copied};
ghost use Rattle.std.specs.Str.{bytes_eq};
ghost use Rattle.cidr_blocks.specs.Places.{names_of};
ghost use Rattle.config_zones.specs.Batches.{check_refusal, collection_refusal, first_among};
ghost use Rattle.config_zones.specs.Batches.{is_location_in, location_refusal, named_check};
ghost use Rattle.config_zones.specs.Batches.{named_collection, named_location};
ghost use Rattle.config_zones.specs.Telling.{first_of};
ghost use Rattle.routing.specs.Texts.{IsLocation};
ghost use Rattle.config_zones.specs.Octets.{HasSpelling, IsSpelledRouting};

use cidr_routing::{CidrLocation, Collection, Collections, Ident, locations_are_names};
use config_zones::Refusal;
use health_check::CheckTable;
use record_set::{RecordSet, Routing};

/// The first refusal of sets for what they name: a check, then a collection, then a location.
pub fn named_refusal(
    checks: &CheckTable,
    collections: &Collections,
    sets: &[RecordSet],
) -> Option<Refusal>
    requires { AllByRecursion HasSpelling sets.now }
    ensures { result ≡ first_of (
        first_among (check_refusal checks.now.checks.list) sets.now
        ∷ first_among (collection_refusal collections.now.list) sets.now
        ∷ first_among (location_refusal collections.now.list) sets.now
        ∷ []) }
{
    if let Some(why) = missing_check(checks, sets) {
        return Some(why);
    }
    if let Some(why) = missing_collection(collections, sets) {
        return Some(why);
    }
    missing_location(collections, sets)
}

/// The first set that names a check that isn't there.
fn missing_check(checks: &CheckTable, sets: &[RecordSet]) -> Option<Refusal>
    ensures { result ≡ first_among (check_refusal checks.now.checks.list) sets.now }
{
    for i in 0..sets.len() {
        if let Some(why) = check_refusal(checks, &sets[i]) {
            return Some(why);
        }
    }
    None
}

/// The check that a set names isn't there.
fn check_refusal(checks: &CheckTable, set: &RecordSet) -> Option<Refusal>
    ensures { result ≡ check_refusal checks.now.checks.list set.now }
{
    let Some(id) = set.check else {
        return None;
    };
    match checks.get(id) {
        Some(_) => None,
        None => Some(Refusal::NoSuchHealthCheck(id)),
    }
}

/// The first set that names a collection that isn't there.
fn missing_collection(collections: &Collections, sets: &[RecordSet]) -> Option<Refusal>
    ensures { result ≡ first_among (collection_refusal collections.now.list) sets.now }
{
    for i in 0..sets.len() {
        if let Some(why) = collection_refusal(collections, &sets[i].routing) {
            return Some(why);
        }
    }
    None
}

/// The collection that a policy names isn't there.
fn collection_refusal(collections: &Collections, routing: &Routing) -> Option<Refusal>
    ensures { result ≡ named_collection collections.now.list routing.now }
{
    let Routing::Cidr(_, id, _) = routing else {
        return None;
    };
    match collections.get(*id) {
        Some(_) => None,
        None => Some(Refusal::NoSuchCidrCollection(*id)),
    }
}

/// The first set that names a location without blocks.
fn missing_location(collections: &Collections, sets: &[RecordSet]) -> Option<Refusal>
    requires { AllByRecursion HasSpelling sets.now }
    ensures { result ≡ first_among (location_refusal collections.now.list) sets.now }
{
    for i in 0..sets.len() {
        if let Some(why) = location_refusal(collections, &sets[i].routing) {
            return Some(why);
        }
    }
    None
}

/// The location that a policy names isn't `*`, and has no block in its collection.
fn location_refusal(collections: &Collections, routing: &Routing) -> Option<Refusal>
    requires { IsSpelledRouting routing.now }
    ensures { result ≡ named_location collections.now.list routing.now }
{
    let Routing::Cidr(_, id, location) = routing else {
        return None;
    };
    let name = name_of(location);
    if name.is_star() {
        return None;
    }
    if is_location_in(collections.get(*id), &name) {
        return None;
    }
    Some(Refusal::NoSuchCidrLocation(name))
}

/// The location that a set names, as collections name it.
fn name_of(location: &record_set::Ident) -> Ident
    requires { IsLocation location.now }
    ensures { result ≡ location.now }
{
    locations_are_names();
    match Ident::new(location.bytes()) {
        Some(name) => name,
        None => unreachable!(),
    }
}

/// Whether a collection, if it is there, has the location.
fn is_location_in(collection: Option<&Collection>, name: &Ident) -> bool
    ensures { result ≡ is_location_in (option_copied collection.entry) name.now }
{
    match collection {
        Some(collection) => has_location(collection.locations.as_slice(), name),
        None => false,
    }
}

/// Whether one of the locations has the name.
fn has_location(locations: &[CidrLocation], name: &Ident) -> bool
    ensures { result ≡ list_any (bytes_eq name.now) (names_of locations.now) }
{
    for location in locations {
        if are_equal(name.bytes(), location.name.bytes()) {
            return true;
        }
    }
    false
}

/// Whether two texts are one.
fn are_equal(text: &[u8], other: &[u8]) -> bool
    ensures { result ≡ bytes_eq text.now other.now }
{
    text == other
}
