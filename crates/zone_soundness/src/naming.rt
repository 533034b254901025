//! What a set names: whether it is there.

ghost use Rattle.std.specs.Prelude.{◌≡◌, ◌↔◌, IsTrue};
ghost use Rattle.std.specs.List.{list_any};
ghost use Rattle.std.specs.Option.{option_copied};
ghost use Rattle.std.specs.Str.{bytes_eq};
ghost use Rattle.cidr_blocks.specs.Idents.{star};
ghost use Rattle.cidr_blocks.specs.Places.{names_of};
ghost use Rattle.cidr_changes.specs.Laws.{IsStarOrLocation};
ghost use Rattle.cidr_commands.specs.Kept.{IsThereIn};
ghost use Rattle.zone_soundness.specs.Parts.{ArePlacesThere, IsCheckThere};

use cidr_routing::{CidrLocation, Collection, Collections};
use health_check::CheckTable;
use record_set::Routing;

/// Whether the check that is named, if there is one, is there.
pub fn has_check(checks: &CheckTable, named: Option<u32>) -> bool
    ensures { IsTrue result ↔ IsCheckThere checks.now.checks.list named }
{
    let Some(id) = named else {
        return true;
    };
    match checks.get(id) {
        Some(_) => true,
        None => false,
    }
}

/// Whether the collection and the location that a policy names, if it does, are there.
pub fn has_places(collections: &Collections, routing: &Routing) -> bool
    ensures { IsTrue result ↔ ArePlacesThere collections.now.list routing.now }
{
    let Routing::Cidr(_, id, location) = routing else {
        return true;
    };
    is_there_in(collections.get(*id), location.bytes())
}

/// Whether a collection, if it is there, has the location, or that is `*`.
fn is_there_in(collection: Option<&Collection>, name: &[u8]) -> bool
    ensures { IsTrue result ↔ IsThereIn (option_copied collection.entry) name.now }
{
    match collection {
        Some(collection) => is_placed(collection.locations.as_slice(), name),
        None => false,
    }
}

/// Whether a name is `*`, or that of a location.
fn is_placed(locations: &[CidrLocation], name: &[u8]) -> bool
    ensures { IsTrue result ↔ IsStarOrLocation locations.now name.now }
{
    is_star(name) || has_location(locations, name)
}

/// Whether a name is `*`, which names no location.
fn is_star(name: &[u8]) -> bool
    ensures { IsTrue result ↔ (name.now ≡ star) }
{
    match name {
        [byte] => *byte == b'*',
        _ => false,
    }
}

/// Whether one of the locations has the name.
fn has_location(locations: &[CidrLocation], name: &[u8]) -> bool
    ensures { result ≡ list_any (bytes_eq name.now) (names_of locations.now) }
{
    for location in locations {
        if are_equal(name, location.name.bytes()) {
            return true;
        }
    }
    false
}

/// Whether two texts are one.
fn are_equal(text: &[u8], other: &[u8]) -> bool
    ensures { result ≡ bytes_eq text.now other.now }
{
    text == other
}
