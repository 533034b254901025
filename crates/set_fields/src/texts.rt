//! The fields of a set that are letters and texts.

ghost use Rattle.std.specs.Prelude.{◌≡◌};
ghost use Rattle.octet_reading.specs.Reading.{Gives};
ghost use Rattle.set_octets.specs.Octets.{is_capital};
ghost use Rattle.set_fields.specs.Texts.{begins_with_star, ident_at, region_at, sub_at};
ghost use Rattle.set_fields.specs.Texts.{location_at, country_at};

use crate::alphabets::{OfLocations, OfRegions, OfSubdivisions, Printable};
use octet_reading::{Fault, parts, text_at};
use octets::behind;
use set_octets::{Ident, Region, Sub};

/// The two capital letters of a country, and what stands behind them.
#[tactic(auto, unfolding(crate::specs::Texts::country_at))]
pub fn country_at(bytes: &[u8]) -> Result<([u8; 2], &[u8]), Fault>
    ensures { Gives (λ x. (x.0, x.1.now)) result (country_at bytes.now) }
{
    match bytes {
        [] => Err(Fault(0)),
        [a] => {
            if is_capital(*a) {
                return Err(Fault(0));
            }
            Err(Fault(1))
        }
        [a, b, rest @ ..] => {
            if !(is_capital(*a) && is_capital(*b)) {
                return Err(Fault(bytes.len()));
            }
            Ok(([*a, *b], rest))
        }
    }
}

/// Whether a byte is one of A to Z.
fn is_capital(b: u8) -> bool
    ensures { result ≡ is_capital b }
{
    matches!(b, b'A'..=b'Z')
}

/// The identifier of a set behind its length, and what stands behind it.
pub fn ident_at(bytes: &[u8]) -> Result<(Ident, &[u8]), Fault>
    ensures { Gives (λ x. (x.0, x.1.now)) result (ident_at bytes.now) }
{
    let (text, rest) = text_at::<Printable>(128, bytes)?;
    let Some(ident) = Ident::new(text) else {
        return Err(Fault(bytes.len()));
    };
    Ok((ident, rest))
}

/// The name of a region behind its length, and what stands behind it.
pub fn region_at(bytes: &[u8]) -> Result<(Region, &[u8]), Fault>
    ensures { Gives (λ x. (x.0, x.1.now)) result (region_at bytes.now) }
{
    let (text, rest) = text_at::<OfRegions>(32, bytes)?;
    let Some(region) = Region::new(text) else {
        return Err(Fault(bytes.len()));
    };
    Ok((region, rest))
}

/// The code of a subdivision behind its length, and what stands behind it.
pub fn sub_at(bytes: &[u8]) -> Result<(Sub, &[u8]), Fault>
    ensures { Gives (λ x. (x.0, x.1.now)) result (sub_at bytes.now) }
{
    let (text, rest) = text_at::<OfSubdivisions>(3, bytes)?;
    let Some(sub) = Sub::new(text) else {
        return Err(Fault(bytes.len()));
    };
    Ok((sub, rest))
}

/// The location that a set names behind its length, and what stands behind it.
pub fn location_at(bytes: &[u8]) -> Result<(Ident, &[u8]), Fault>
    ensures { Gives (λ x. (x.0, x.1.now)) result (location_at bytes.now) }
{
    let (text, rest) = location_text_at(bytes)?;
    let Some(ident) = Ident::new(text) else {
        return Err(Fault(bytes.len()));
    };
    Ok((ident, rest))
}

/// The bytes of a location: a name, or the one byte `*`.
#[tactic(auto, unfolding(crate::specs::Texts::location_at))]
fn location_text_at(bytes: &[u8]) -> Result<(&[u8], &[u8]), Fault>
    ensures { Gives (λ x. (x.0.now, x.1.now)) result (location_at bytes.now) }
{
    if begins_with_star(bytes) {
        let (front, rest) = parts(bytes, 2);
        return Ok((behind(front, 1), rest));
    }
    text_at::<OfLocations>(16, bytes)
}

/// Whether bytes begin with the text `*` behind its length.
fn begins_with_star(bytes: &[u8]) -> bool
    ensures { result ≡ begins_with_star bytes.now }
{
    matches!(bytes, [1, b'*', ..])
}
