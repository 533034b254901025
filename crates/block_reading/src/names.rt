//! Names of collections and of locations at the front of octets.

ghost use Rattle.block_octets.specs.Reading.{Gives};
ghost use Rattle.block_reading.specs.Reading.{name_at, location_at};

use block_octets::{Alphabet, Fault, Ident, is_location_byte, text_at};

/// A to Z, a to z, 0 to 9, `_` and `-`.
struct OfNames;

impl Alphabet for OfNames {
    ghost use Rattle.block_octets.specs.Texts.{is_location_byte};

    ghost is_plain = { λ b. is_location_byte b };

    fn is_plain(b: u8) -> bool {
        is_location_byte(b)
    }
}

/// The name of a collection behind its length.
pub fn name_at(bytes: &[u8]) -> Result<(Ident, &[u8]), Fault>
    ensures { Gives (λ x. (x.0, x.1.now)) result (name_at bytes.now) }
{
    let (text, rest) = text_at::<OfNames>(64, bytes)?;
    let Some(name) = Ident::new(text) else {
        return Err(Fault(bytes.len()));
    };
    Ok((name, rest))
}

/// The name of a location behind its length.
pub fn location_at(bytes: &[u8]) -> Result<(Ident, &[u8]), Fault>
    ensures { Gives (λ x. (x.0, x.1.now)) result (location_at bytes.now) }
{
    let (text, rest) = text_at::<OfNames>(16, bytes)?;
    let Some(name) = Ident::new(text) else {
        return Err(Fault(bytes.len()));
    };
    Ok((name, rest))
}
