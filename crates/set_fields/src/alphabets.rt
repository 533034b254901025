//! The bytes that the texts of sets are made of.

use octet_reading::Alphabet;
use set_octets::{is_location_byte, is_printable, is_region_byte, is_subdivision_byte};

/// Printable ASCII with the space.
pub(crate) struct Printable;

impl Alphabet for Printable {
    ghost use Rattle.set_octets.specs.Texts.{is_printable};

    ghost is_plain = { λ b. is_printable b };

    fn is_plain(b: u8) -> bool {
        is_printable(b)
    }
}

/// a to z, 0 to 9 and `-`.
pub(crate) struct OfRegions;

impl Alphabet for OfRegions {
    ghost use Rattle.set_octets.specs.Texts.{is_region_byte};

    ghost is_plain = { λ b. is_region_byte b };

    fn is_plain(b: u8) -> bool {
        is_region_byte(b)
    }
}

/// A to Z and 0 to 9.
pub(crate) struct OfSubdivisions;

impl Alphabet for OfSubdivisions {
    ghost use Rattle.set_octets.specs.Texts.{is_subdivision_byte};

    ghost is_plain = { λ b. is_subdivision_byte b };

    fn is_plain(b: u8) -> bool {
        is_subdivision_byte(b)
    }
}

/// A to Z, a to z, 0 to 9, `_` and `-`.
pub(crate) struct OfLocations;

impl Alphabet for OfLocations {
    ghost use Rattle.set_octets.specs.Texts.{is_location_byte};

    ghost is_plain = { λ b. is_location_byte b };

    fn is_plain(b: u8) -> bool {
        is_location_byte(b)
    }
}
