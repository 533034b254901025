//! The alphabets of the texts in policies, and texts of 1 to so many of their bytes.

ghost use Rattle.std.specs.Prelude.{◌≡◌, ◌↔◌, true, IsTrue};
ghost use Rattle.std.specs.List.{AllByRecursion};
ghost use Rattle.routing.specs.Texts.{IsText, is_of, is_printable, is_region_byte};
ghost use Rattle.routing.specs.Texts.{is_subdivision_byte, is_location_byte};

/// The bytes that a text is made of.
#[derive(Clone, Copy)]
pub(crate) enum Alphabet {
    /// Printable ASCII with the space.
    Printable,
    /// a to z, 0 to 9 and `-`.
    RegionName,
    /// A to Z and 0 to 9.
    SubdivisionCode,
    /// A to Z, a to z, 0 to 9, `_` and `-`.
    LocationName,
}

/// Whether bytes are 1 to so many of an alphabet.
pub(crate) fn is_text(alphabet: Alphabet, most: usize, bytes: &[u8]) -> bool
    ensures { IsTrue result ↔ IsText (is_of alphabet) most bytes.now }
{
    if bytes.is_empty() || bytes.len() > most {
        return false;
    }
    are_of(alphabet, bytes)
}

/// Whether bytes are 1 to so many of A to Z, a to z, 0 to 9, `_` and `-`.
pub fn is_location_text(most: usize, bytes: &[u8]) -> bool
    ensures { IsTrue result ↔ IsText is_location_byte most bytes.now }
{
    is_text(Alphabet::LocationName, most, bytes)
}

/// Whether each byte is of an alphabet.
fn are_of(alphabet: Alphabet, bytes: &[u8]) -> bool
    ensures { IsTrue result ↔ AllByRecursion (λ b. is_of alphabet b ≡ true) bytes.now }
{
    for b in bytes {
        if !is_of(alphabet, *b) {
            return false;
        }
    }
    true
}

/// Whether a byte is of an alphabet.
fn is_of(alphabet: Alphabet, b: u8) -> bool
    ensures { result ≡ is_of alphabet b }
{
    match alphabet {
        Alphabet::Printable => is_printable(b),
        Alphabet::RegionName => is_region_byte(b),
        Alphabet::SubdivisionCode => is_subdivision_byte(b),
        Alphabet::LocationName => is_location_byte(b),
    }
}

/// Whether a byte is printable ASCII or the space.
pub fn is_printable(b: u8) -> bool
    ensures { result ≡ is_printable b }
{
    matches!(b, 0x20..=0x7e)
}

/// Whether a byte is one of a to z, 0 to 9 and `-`.
pub fn is_region_byte(b: u8) -> bool
    ensures { result ≡ is_region_byte b }
{
    matches!(b, b'a'..=b'z' | b'0'..=b'9' | b'-')
}

/// Whether a byte is one of A to Z and 0 to 9.
pub fn is_subdivision_byte(b: u8) -> bool
    ensures { result ≡ is_subdivision_byte b }
{
    matches!(b, b'A'..=b'Z' | b'0'..=b'9')
}

/// Whether a byte is one of A to Z, a to z, 0 to 9, `_` and `-`.
pub fn is_location_byte(b: u8) -> bool
    ensures { result ≡ is_location_byte b }
{
    matches!(b, b'A'..=b'Z' | b'a'..=b'z' | b'0'..=b'9' | b'_' | b'-')
}
