//! The names of collections and of their locations, and `*`, which stands for no location.

ghost use Rattle.std.specs.Prelude.{◌≡◌, ◌↔◌, ◌∷◌, [], true, IsTrue, SomeIff};
ghost use Rattle.std.specs.List.{AllByRecursion};
ghost use Rattle.std.specs.Str.{bytes_eq};
ghost use Rattle.routing.specs.Texts.{IsLocationName, IsText, is_location_byte};
ghost use Rattle.cidr_blocks.specs.Idents.{IsCollectionName, IsNameOrStar, star};

use octets::{fill_front, front};
use routing::is_location_text;
use std::marker::Model;

/// The name of a collection or of a location, or the one byte `*`.
#[derive(Clone, Copy, Debug, PartialEq, Eq)]
pub struct Ident {
    bytes: [u8; 64],
    len: u8,
}

impl Model for Ident {
    ghost use Rattle.std.specs.Prelude.{◌≡◌, ℕ, List, length, take};
    ghost use Rattle.std.proofs.Common.{ap};
    ghost use Rattle.routing.specs.Padded.{IsPadded, padded};
    ghost use Rattle.cidr_blocks.specs.Idents.{IsNameOrStar};

    ghost Value = { List ℕ };

    ghost view = { λ a. take a.len a.bytes };

    ghost invariant = { λ a. IsPadded a.bytes a.len 64 × IsNameOrStar (take a.len a.bytes) };

    ghost inverse = { λ text. record { bytes = padded 64 text; len = length text } };

    ghost inverse_ok = { λ a h.
        let e : (padded 64 (take a.len a.bytes), length (take a.len a.bytes)) ≡ (a.bytes, a.len) =
        let size = h.0.size in
        let bytes = h.0.bytes in
        Prim.cc in
        ap (λ (p : List ℕ × ℕ). record { bytes = p.0; len = p.1 }) e };
}

impl Ident {
    /// The name of these bytes.
    pub fn new(bytes: &[u8]) -> Option<Ident>
        ensures { SomeIff result (IsNameOrStar bytes.now) bytes.now }
    {
        if !is_ident(bytes) {
            return None;
        }
        let mut array = [0; 64];
        fill_front(&mut array, bytes);
        Some(Ident {
            bytes: array,
            len: bytes.len() as u8,
        })
    }

    /// Its bytes.
    pub fn bytes(&self) -> &[u8]
        ensures bytes { result.now ≡ self.now }
        ensures ident { IsNameOrStar self.now }
    {
        front(&self.bytes, self.len as usize)
    }

    /// Whether it is the name of a collection: 1 to 64 letters, digits, `_` and `-`.
    pub fn is_collection_name(&self) -> bool
        ensures { IsTrue result ↔ IsCollectionName self.now }
    {
        is_location_text(64, self.bytes())
    }

    /// Whether it is the name of a location: 1 to 16 letters, digits, `_` and `-`.
    pub fn is_location_name(&self) -> bool
        ensures { IsTrue result ↔ IsLocationName self.now }
    {
        is_location_text(16, self.bytes())
    }

    /// Whether it is `*`, which names no location.
    pub fn is_star(&self) -> bool
        ensures { result ≡ bytes_eq self.now star }
    {
        bytes_are(self.bytes(), b"*")
    }
}

/// Whether two texts are one.
fn bytes_are(text: &[u8], other: &[u8]) -> bool
    ensures { result ≡ bytes_eq text.now other.now }
{
    text == other
}

/// Whether bytes are a name or `*`.
fn is_ident(bytes: &[u8]) -> bool
    ensures { IsTrue result ↔ IsNameOrStar bytes.now }
{
    if is_location_text(64, bytes) {
        return true;
    }
    is_star(bytes)
}

/// Whether a text is the one byte `*`.
fn is_star(text: &[u8]) -> bool
    ensures { IsTrue result ↔ (text.now ≡ star) }
{
    matches!(text, [b'*'])
}
