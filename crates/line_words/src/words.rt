//! Texts that stand for something.

ghost use Rattle.std.specs.Prelude.{◌≡◌, is_some};
ghost use Rattle.serde_json.specs.View.{view};
ghost use Rattle.line_words.specs.Words.{ident_of_text, region_of_text, subdivision_of_text, location_of_text, role_of_text};
ghost use Rattle.line_words.specs.Words.{is_location, plain};
ghost use Rattle.routing.specs.Texts.{is_location_byte};
ghost use Rattle.line_words.specs.Words.{type_named, is_unsupported, type_of, record_type};
ghost use Rattle.line_words.specs.Words.{continent_of_text};

use line_reading::{LineFault, LineReason, Member};
use rdata_layout::RType;
use routing::{Continent, Ident, Region, Role, Sub, is_location_text};
use serde_json::Value;

/// The identifier of a set.
#[tactic(auto, using(crate::proofs::Plain::decided))]
pub fn ident_of_text(text: &str) -> Option<Ident>
    ensures { result ≡ ident_of_text text.now }
{
    Ident::new(text.as_bytes())
}

/// The name of a region.
#[tactic(auto, using(crate::proofs::Plain::decided))]
pub fn region_of_text(text: &str) -> Option<Region>
    ensures { result ≡ region_of_text text.now }
{
    Region::new(text.as_bytes())
}

/// The code of a subdivision.
#[tactic(auto, using(crate::proofs::Plain::decided))]
pub fn subdivision_of_text(text: &str) -> Option<Sub>
    ensures { result ≡ subdivision_of_text text.now }
{
    Sub::new(text.as_bytes())
}

/// The location of a collection that a set names, or `*`.
pub fn location_of_text(text: &str) -> Option<Ident>
    ensures { result ≡ location_of_text text.now }
{
    if is_location(text) {
        ident_of_text(text)
    } else {
        None
    }
}

/// Whether a text is the name of a location, or `*`.
fn is_location(text: &str) -> bool
    ensures { result ≡ is_location text.now }
{
    text == "*" || is_location_name(text.as_bytes())
}

/// Whether a text is the name of a location.
fn is_location_name(text: &[u8]) -> bool
    ensures { result ≡ is_some (plain is_location_byte 16 text.now) }
{
    is_location_text(16, text)
}

/// The continent of a code.
pub fn continent_of_text(text: &str) -> Option<Continent>
    ensures { result ≡ continent_of_text text.now }
{
    match text {
        "AF" => Some(Continent::Af),
        "AN" => Some(Continent::An),
        "AS" => Some(Continent::As),
        "EU" => Some(Continent::Eu),
        "NA" => Some(Continent::Na),
        "OC" => Some(Continent::Oc),
        "SA" => Some(Continent::Sa),
        _ => None,
    }
}

/// The part of a failover set.
pub fn role_of_text(text: &str) -> Option<Role>
    ensures { result ≡ role_of_text text.now }
{
    match text {
        "PRIMARY" => Some(Role::Primary),
        "SECONDARY" => Some(Role::Secondary),
        _ => None,
    }
}

/// The type of records of a member.
#[tactic(auto, unfolding(crate::specs::Words::record_type))]
pub fn record_type(member: Member, value: &Value) -> Result<RType, LineFault>
    ensures { result ≡ record_type member (view value.now) }
{
    match value.as_str() {
        Some(text) => type_of(member, text),
        None => Err(LineFault::bad(LineReason::WrongKind, member)),
    }
}

/// The type by its text.
fn type_of(member: Member, text: &str) -> Result<RType, LineFault>
    ensures { result ≡ type_of member text.now }
{
    if is_unsupported(text) {
        return Err(LineFault::unsupported(Member::Type));
    }
    match type_named(text.as_bytes()) {
        Some(rtype) => Ok(rtype),
        None => Err(LineFault::bad(LineReason::OutOfRange, member)),
    }
}

/// The type of a text.
fn type_named(text: &[u8]) -> Option<RType>
    ensures { result ≡ type_named text.now }
{
    RType::from_text(text)
}

/// Whether a type is one that is not offered.
fn is_unsupported(text: &str) -> bool
    ensures { result ≡ is_unsupported text.now }
{
    text == "DS"
        || text == "HTTPS"
        || text == "NAPTR"
        || text == "SSHFP"
        || text == "SVCB"
        || text == "TLSA"
}
