//! The fields of rows that tell where clients are.

ghost use Rattle.std.specs.Prelude.{◌≡◌};
ghost use Rattle.geo_latency.specs.Rows.{continent_of_text, country_of_text, in_continent, is_capital};
ghost use Rattle.geo_latency.specs.Rows.{is_within, located, location_of_text, subdivision_of_text};
ghost use Rattle.geo_latency.specs.Rows.{region_latency_of, region_of_text};
ghost use Rattle.prefix_text.specs.Marks.{place_of};

use crate::location::Location;
use octets::{behind, front};
use prefix_text::{place_of, read_number};
use routing::{Continent, Region, Sub};

/// The location of a text: a continent, a country and a subdivision with one space between them.
///
/// A hyphen stands for a country or a subdivision that isn't told.
pub fn read_location(text: &[u8]) -> Option<Location>
    ensures { result ≡ location_of_text text.now }
{
    let Some(at) = place_of(b' ', text) else {
        return None;
    };
    read_in_continent(read_continent(front(text, at)), behind(text, at + 1))
}

/// The location of a country and a subdivision in a continent, where that is one.
fn read_in_continent(continent: Option<Continent>, text: &[u8]) -> Option<Location>
    ensures { result ≡ in_continent continent text.now (place_of 0x20 text.now) }
{
    let Some(at) = place_of(b' ', text) else {
        return None;
    };
    let Some(continent) = continent else {
        return None;
    };
    let Some(country) = read_country(front(text, at)) else {
        return None;
    };
    let Some(subdivision) = read_subdivision(behind(text, at + 1)) else {
        return None;
    };
    if country.is_none() && subdivision.is_some() {
        return None;
    }
    Some(Location {
        continent,
        country,
        subdivision,
    })
}

/// The continent of a code.
fn read_continent(text: &[u8]) -> Option<Continent>
    ensures { result ≡ continent_of_text text.now }
{
    if text == b"AF".as_slice() {
        return Some(Continent::Af);
    }
    if text == b"AN".as_slice() {
        return Some(Continent::An);
    }
    if text == b"AS".as_slice() {
        return Some(Continent::As);
    }
    if text == b"EU".as_slice() {
        return Some(Continent::Eu);
    }
    if text == b"NA".as_slice() {
        return Some(Continent::Na);
    }
    if text == b"OC".as_slice() {
        return Some(Continent::Oc);
    }
    if text == b"SA".as_slice() {
        return Some(Continent::Sa);
    }
    None
}

/// A country, or none where a hyphen stands.
fn read_country(text: &[u8]) -> Option<Option<[u8; 2]>>
    ensures { result ≡ country_of_text text.now }
{
    match text {
        [a] if *a == b'-' => Some(None),
        [a, b] if is_capital(*a) && is_capital(*b) => Some(Some([*a, *b])),
        _ => None,
    }
}

/// Whether a byte is one of A to Z.
fn is_capital(b: u8) -> bool
    ensures { result ≡ is_capital b }
{
    matches!(b, b'A'..=b'Z')
}

/// A subdivision, or none where a hyphen stands.
fn read_subdivision(text: &[u8]) -> Option<Option<Sub>>
    ensures { result ≡ subdivision_of_text text.now }
{
    if text == b"-".as_slice() {
        return Some(None);
    }
    let Some(subdivision) = Sub::new(text) else {
        return None;
    };
    Some(Some(subdivision))
}

/// The region and the latency of a text: the name of a region, `=` and a number without leading
/// zeros.
pub fn read_region_latency(text: &[u8]) -> Option<(Region, u32)>
    ensures { result ≡ region_latency_of text.now }
{
    let Some(at) = place_of(b'=', text) else {
        return None;
    };
    let Some(region) = read_region(front(text, at)) else {
        return None;
    };
    let Some(latency) = read_number(behind(text, at + 1), 4_294_967_295) else {
        return None;
    };
    Some((region, latency))
}

/// The region of a name.
fn read_region(text: &[u8]) -> Option<Region>
    ensures { result ≡ region_of_text text.now }
{
    let Some(region) = Region::new(text) else {
        return None;
    };
    Some(region)
}
