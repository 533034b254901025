//! Texts of bounded length in fixed arrays: identifiers, the names of regions and the codes of
//! subdivisions.

ghost use Rattle.std.specs.Prelude.{◌≡◌, ◌↔◌, IsTrue, SomeIff};
ghost use Rattle.routing.specs.Texts.{IsIdent, IsRegion, IsSubdivision};

use crate::alphabet::{Alphabet, is_text};
use octets::{fill_front, front};
use std::marker::Model;

/// The identifier of a set: 1 to 128 bytes of printable ASCII.
#[derive(Clone, Copy, Debug, PartialEq, Eq)]
pub struct Ident {
    bytes: [u8; 128],
    len: u8,
}

impl Model for Ident {
    ghost use Rattle.std.specs.Prelude.{◌≡◌, ℕ, List, length, take};
    ghost use Rattle.std.proofs.Common.{ap};
    ghost use Rattle.routing.specs.Padded.{IsPadded, padded};
    ghost use Rattle.routing.specs.Texts.{IsIdent};

    ghost Value = { List ℕ };

    ghost view = { λ a. take a.len a.bytes };

    ghost invariant = { λ a. IsPadded a.bytes a.len 128 × IsIdent (take a.len a.bytes) };

    ghost inverse = { λ text. record { bytes = padded 128 text; len = length text } };

    ghost inverse_ok = { λ a h.
        let e : (padded 128 (take a.len a.bytes), length (take a.len a.bytes)) ≡ (a.bytes, a.len) =
        let size = h.0.size in
        let bytes = h.0.bytes in
        Prim.cc in
        ap (λ (p : List ℕ × ℕ). record { bytes = p.0; len = p.1 }) e };
}

impl Ident {
    /// The identifier of these bytes.
    pub fn new(bytes: &[u8]) -> Option<Ident>
        ensures { SomeIff result (IsIdent bytes.now) bytes.now }
    {
        if !is_text(Alphabet::Printable, 128, bytes) {
            return None;
        }
        let mut array = [0; 128];
        fill_front(&mut array, bytes);
        Some(Ident {
            bytes: array,
            len: bytes.len() as u8,
        })
    }

    /// Its bytes.
    pub fn bytes(&self) -> &[u8]
        ensures bytes { result.now ≡ self.now }
        ensures ident { IsIdent self.now }
    {
        front(&self.bytes, self.len as usize)
    }

    /// Whether the two are one, by the equality that contracts use.
    pub fn is_same(&self, other: &Ident) -> bool
        ensures { IsTrue result ↔ (self.now ≡ other.now) }
    {
        self.bytes() == other.bytes()
    }
}

/// The name of a region: 1 to 32 bytes of a to z, 0 to 9 and `-`.
#[derive(Clone, Copy, Debug, PartialEq, Eq)]
pub struct Region {
    bytes: [u8; 32],
    len: u8,
}

impl Model for Region {
    ghost use Rattle.std.specs.Prelude.{◌≡◌, ℕ, List, length, take};
    ghost use Rattle.std.proofs.Common.{ap};
    ghost use Rattle.routing.specs.Padded.{IsPadded, padded};
    ghost use Rattle.routing.specs.Texts.{IsRegion};

    ghost Value = { List ℕ };

    ghost view = { λ a. take a.len a.bytes };

    ghost invariant = { λ a. IsPadded a.bytes a.len 32 × IsRegion (take a.len a.bytes) };

    ghost inverse = { λ text. record { bytes = padded 32 text; len = length text } };

    ghost inverse_ok = { λ a h.
        let e : (padded 32 (take a.len a.bytes), length (take a.len a.bytes)) ≡ (a.bytes, a.len) =
        let size = h.0.size in
        let bytes = h.0.bytes in
        Prim.cc in
        ap (λ (p : List ℕ × ℕ). record { bytes = p.0; len = p.1 }) e };
}

impl Region {
    /// The region of these bytes.
    pub fn new(bytes: &[u8]) -> Option<Region>
        ensures { SomeIff result (IsRegion bytes.now) bytes.now }
    {
        if !is_text(Alphabet::RegionName, 32, bytes) {
            return None;
        }
        let mut array = [0; 32];
        fill_front(&mut array, bytes);
        Some(Region {
            bytes: array,
            len: bytes.len() as u8,
        })
    }

    /// Its bytes.
    pub fn bytes(&self) -> &[u8]
        ensures bytes { result.now ≡ self.now }
        ensures region { IsRegion self.now }
    {
        front(&self.bytes, self.len as usize)
    }

    /// Whether the two are one, by the equality that contracts use.
    pub fn is_same(&self, other: &Region) -> bool
        ensures { IsTrue result ↔ (self.now ≡ other.now) }
    {
        self.bytes() == other.bytes()
    }
}

/// The code of a country's subdivision: 1 to 3 bytes of A to Z and 0 to 9 (ISO 3166-2, behind the
/// hyphen).
#[derive(Clone, Copy, Debug, PartialEq, Eq)]
pub struct Sub {
    bytes: [u8; 3],
    len: u8,
}

impl Model for Sub {
    ghost use Rattle.std.specs.Prelude.{◌≡◌, ℕ, List, length, take};
    ghost use Rattle.std.proofs.Common.{ap};
    ghost use Rattle.routing.specs.Padded.{IsPadded, padded};
    ghost use Rattle.routing.specs.Texts.{IsSubdivision};

    ghost Value = { List ℕ };

    ghost view = { λ a. take a.len a.bytes };

    ghost invariant = { λ a. IsPadded a.bytes a.len 3 × IsSubdivision (take a.len a.bytes) };

    ghost inverse = { λ text. record { bytes = padded 3 text; len = length text } };

    ghost inverse_ok = { λ a h.
        let e : (padded 3 (take a.len a.bytes), length (take a.len a.bytes)) ≡ (a.bytes, a.len) =
        let size = h.0.size in
        let bytes = h.0.bytes in
        Prim.cc in
        ap (λ (p : List ℕ × ℕ). record { bytes = p.0; len = p.1 }) e };
}

impl Sub {
    /// The subdivision of these bytes.
    pub fn new(bytes: &[u8]) -> Option<Sub>
        ensures { SomeIff result (IsSubdivision bytes.now) bytes.now }
    {
        if !is_text(Alphabet::SubdivisionCode, 3, bytes) {
            return None;
        }
        let mut array = [0; 3];
        fill_front(&mut array, bytes);
        Some(Sub {
            bytes: array,
            len: bytes.len() as u8,
        })
    }

    /// Its bytes.
    pub fn bytes(&self) -> &[u8]
        ensures bytes { result.now ≡ self.now }
        ensures subdivision { IsSubdivision self.now }
    {
        front(&self.bytes, self.len as usize)
    }

    /// Whether the two are one, by the equality that contracts use.
    pub fn is_same(&self, other: &Sub) -> bool
        ensures { IsTrue result ↔ (self.now ≡ other.now) }
    {
        self.bytes() == other.bytes()
    }
}
