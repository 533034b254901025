//! The set of the smallest place that applies to a client, kept while the sets are walked.

ghost use Rattle.std.specs.Prelude.{◌≡◌, ◌≤◌, ◌<◌, ℕ, List, length, if◌then◌else◌};
ghost use Rattle.std.specs.Prelude.{Option, None, IfSome, IsTrue};
ghost use Rattle.std.specs.Option.{option_copied};
ghost use Rattle.geo_latency.specs.Nearest.{IsWithin, IsFirstRank, code_number, country_number};
ghost use Rattle.geo_latency.specs.Nearest.{order_of, rank_of, size_of, wanted, with_set};
ghost use Rattle.geo_latency.specs.Places.{chosen, is_some_of, is_same_continent, number_of};
ghost use Rattle.geo_latency.specs.declared.location.Location.{Location};

use crate::location::Location;
use crate::same::is_same_subdivision;
use routing::{Continent, Place, Sub};

/// What stands for the rank of a set where none was found. It is behind each that a set has.
const NONE: u8 = 8;

/// Chooses a set of a geolocation group. The answer is its place in the group.
///
/// Of the sets that apply to the client it is the healthy one of the smallest place; where none of
/// them is healthy, the one of the smallest place; and None where none applies.
pub fn choose_place(places: &[Place], healthy: &[bool], client: Option<&Location>) -> Option<usize>
    requires one_length { length places.now ≡ length healthy.now }
    ensures chosen { result ≡ chosen places.now healthy.now (option_copied client.entry) }
    ensures within { IfSome result (λ set. set < length places.now) }
{
    let country = wanted_country(client);
    let mut nearest = Nearest { rank: NONE, set: 0 };
    for i in (0..places.len()).rev() {
        if is_elsewhere(country, &places[i]) {
            continue;
        }
        nearest = with_set(client, &places[i], healthy[i], i, nearest);
    }
    if nearest.rank >= NONE {
        return None;
    }
    Some(nearest.set)
}

/// The sizes of places.
#[derive(Clone, Copy)]
enum Size {
    Subdivision,
    Country,
    Continent,
    Anywhere,
}

/// The set that comes first among those that were walked, and its rank.
#[derive(Clone, Copy)]
struct Nearest {
    rank: u8,
    set: usize,
}

/// The set that comes first when one more was looked at, which stands in front of the others.
fn with_set(
    client: Option<&Location>,
    place: &Place,
    healthy: bool,
    set: usize,
    nearest: Nearest,
) -> Nearest
    ensures leads { (lists : List (List ℕ)) → length lists ≡ 8
        → IsFirstRank nearest.rank nearest.set lists
        → IsFirstRank result.rank result.set
        (with_set healthy (size_of (option_copied client.entry) place.now) set lists) }
    ensures rank { nearest.rank ≤ 8 → result.rank ≤ 8 }
    ensures within { (n : ℕ) → set < n → IsWithin nearest n → IsWithin result n }
{
    let Some(size) = size_of(client, place) else {
        return nearest;
    };
    let rank = rank_of(healthy, size);
    if rank > nearest.rank {
        return nearest;
    }
    Nearest { rank, set }
}

/// The rank of a set: the healthy ones come first, and of these the smaller places.
fn rank_of(healthy: bool, size: Size) -> u8
    ensures rank { result ≡ rank_of healthy size }
    ensures within { result < 8 }
{
    let order = order_of(size);
    if healthy { order } else { order + 4 }
}

/// A number for each size, from the smallest on.
fn order_of(size: Size) -> u8
    ensures order { result ≡ order_of size }
    ensures within { result < 4 }
{
    match size {
        Size::Subdivision => 0,
        Size::Country => 1,
        Size::Continent => 2,
        Size::Anywhere => 3,
    }
}

/// The size of a place, where it applies to the client.
fn size_of(client: Option<&Location>, place: &Place) -> Option<Size>
    ensures { result ≡ size_of (option_copied client.entry) place.now }
{
    let Some(client) = client else {
        return match place {
            Place::Anywhere => Some(Size::Anywhere),
            _ => None,
        };
    };
    match place {
        Place::Subdivision(country, subdivision) => {
            if !is_part(&client.subdivision, subdivision) {
                return None;
            }
            if_here(is_country(&client.country, country), Size::Subdivision)
        }
        Place::Country(country) => if_here(is_country(&client.country, country), Size::Country),
        Place::Continent(continent) => {
            if_here(
                is_same_continent(client.continent, *continent),
                Size::Continent,
            )
        }
        Place::Anywhere => Some(Size::Anywhere),
    }
}

/// A size, where the place applies.
fn if_here(is_here: bool, size: Size) -> Option<Size>
    ensures { result ≡ (if is_here then Some size else None) }
{
    if is_here { Some(size) } else { None }
}

/// Whether a place is a country other than the one of this number. Most places of a large group
/// are, so this is looked at first.
fn is_elsewhere(country: u32, place: &Place) -> bool
    ensures { (client : Option Location) → country ≡ wanted client → IsTrue result
        → size_of client place.now ≡ None }
{
    match place {
        Place::Country(code) => code_number(code) != country,
        _ => false,
    }
}

/// The number of the client's country, and one that no country has where none is told.
fn wanted_country(client: Option<&Location>) -> u32
    ensures { result ≡ wanted (option_copied client.entry) }
{
    let Some(client) = client else {
        return 65_536;
    };
    match &client.country {
        Some(code) => code_number(code),
        None => 65_536,
    }
}

/// The number of a country's code.
fn code_number(code: &[u8; 2]) -> u32
    ensures { result ≡ code_number code.now }
{
    u32::from(code[0]) + u32::from(code[1]) * 256
}

/// Whether the client's country is this one.
fn is_country(country: &Option<[u8; 2]>, other: &[u8; 2]) -> bool
    ensures { result ≡ is_some_of country.now other.now }
{
    match country {
        Some(code) => code == other,
        None => false,
    }
}

/// Whether the client's subdivision is this one of its country.
fn is_part(subdivision: &Option<Sub>, other: &Sub) -> bool
    ensures { result ≡ is_some_of subdivision.now other.now }
{
    match subdivision {
        Some(code) => is_same_subdivision(code, other),
        None => false,
    }
}

/// Whether two continents are one.
fn is_same_continent(continent: Continent, other: Continent) -> bool
    ensures { result ≡ is_same_continent continent other }
{
    number_of(continent) == number_of(other)
}

/// A number for each continent.
fn number_of(continent: Continent) -> u8
    ensures { result ≡ number_of continent }
{
    match continent {
        Continent::Af => 0,
        Continent::An => 1,
        Continent::As => 2,
        Continent::Eu => 3,
        Continent::Na => 4,
        Continent::Oc => 5,
        Continent::Sa => 6,
    }
}
