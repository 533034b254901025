//! The objects GeoLocation and CidrRoutingConfig.

ghost use Rattle.std.specs.Prelude.{◌≡◌};
ghost use Rattle.serde_json.specs.View.{view};
ghost use Rattle.policy_lines.specs.Places.{is_capital, country_of_text, place_of, geo_location};
ghost use Rattle.policy_lines.specs.Places.{cidr_routing};

use line_reading::{
    LineFault, LineReason, Member, collection_id, object, optional_word, required, required_word,
};
use line_words::{continent_of_text, location_of_text, subdivision_of_text};
use routing::{Continent, Ident, Place, Sub};
use serde_json::Value;

/// A country, or every place.
#[derive(Clone, Copy, Debug, PartialEq, Eq)]
pub(crate) enum Country {
    Any,
    Code([u8; 2]),
}

/// Where a set applies.
#[tactic(auto, unfolding(crate::specs::Places::geo_location))]
pub(crate) fn geo_location(member: Member, value: &Value) -> Result<Place, LineFault>
    ensures { result ≡ geo_location member (view value.now) }
{
    object(
        value,
        member,
        &[],
        &[
            Member::ContinentCode,
            Member::CountryCode,
            Member::SubdivisionCode,
        ],
    )?;
    let continent = optional_word(value, Member::ContinentCode, |text| continent_of_text(text))?;
    let country = optional_word(value, Member::CountryCode, |text| country_of_text(text))?;
    let part = optional_word(
        value,
        Member::SubdivisionCode,
        |text| subdivision_of_text(text),
    )?;
    place_of(continent, country, part)
}

/// The place by the joint rules.
#[tactic(auto, unfolding(crate::specs::Places::place_of))]
fn place_of(
    continent: Option<Continent>,
    country: Option<Country>,
    part: Option<Sub>,
) -> Result<Place, LineFault>
    ensures { result ≡ place_of continent country part }
{
    match (continent, country, part) {
        (Some(continent), None, None) => Ok(Place::Continent(continent)),
        (Some(_), _, _) => Err(LineFault::bad(LineReason::Both, Member::ContinentCode)),
        (None, None, _) => Err(LineFault::bad(LineReason::Missing, Member::CountryCode)),
        (None, Some(Country::Any), None) => Ok(Place::Anywhere),
        (None, Some(Country::Any), Some(_)) => {
            Err(LineFault::bad(LineReason::Both, Member::SubdivisionCode))
        }
        (None, Some(Country::Code(letters)), None) => Ok(Place::Country(letters)),
        (None, Some(Country::Code(letters)), Some(part)) => Ok(Place::Subdivision(letters, part)),
    }
}

/// The country of a code.
fn country_of_text(text: &str) -> Option<Country>
    ensures { result ≡ country_of_text text.now }
{
    match text.as_bytes() {
        [a] => { if *a == b'*' { Some(Country::Any) } else { None } }
        [a, b] => {
            if is_capital(*a) && is_capital(*b) {
                Some(Country::Code([*a, *b]))
            } else {
                None
            }
        }
        _ => None,
    }
}

/// Whether a byte is a capital letter.
fn is_capital(b: u8) -> bool
    ensures { result ≡ is_capital b }
{
    65 <= b && b <= 90
}

/// The location that a set is for: the number of a collection, and the location's name or `*`.
#[tactic(auto, unfolding(crate::specs::Places::cidr_routing))]
pub(crate) fn cidr_routing(member: Member, value: &Value) -> Result<(u32, Ident), LineFault>
    ensures { result ≡ cidr_routing member (view value.now) }
{
    object(
        value,
        member,
        &[],
        &[Member::CollectionId, Member::LocationName],
    )?;
    let collection = collection_id(Member::CollectionId, required(value, Member::CollectionId)?)?;
    let location = required_word(value, Member::LocationName, |text| location_of_text(text))?;
    Ok((collection, location))
}
