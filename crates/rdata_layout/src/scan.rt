//! How long the field, string or tag is that octets begin with.

ghost use Rattle.std.specs.Prelude.{◌≡◌, ℕ, ◌≤◌, ◌<◌, List, ◌∷◌, ◌++◌, length, take, drop, IfSome, IfNone, IsTrue, ◌↔◌, ◌+◌, true};
ghost use Rattle.std.specs.List.{AllByRecursion};
ghost use Rattle.rdata_layout.specs.Fields.{IsField, IsTag, is_letter_or_digit};
ghost use Rattle.rdata_layout.specs.Layout.{string_octets, IsShort};

use crate::Field;
use dns_name::lower_name_len;
use octets::{behind, front};

/// How many octets at the front are a field of this kind. There is one such front at most.
pub fn field_len(field: Field, octets: &[u8]) -> Option<usize>
    ensures within { IfSome result (λ n. n ≤ length octets.now) }
    ensures some { IfSome result (λ n. IsField field (take n octets.now)) }
    ensures only { IfSome result (λ n. (piece rest : List ℕ) → IsField field piece
        → octets.now ≡ piece ++ rest → length piece ≡ n) }
    ensures none { IfNone result
        ((piece rest : List ℕ) → IsField field piece → octets.now ≡ piece ++ rest → ⊥) }
{
    match field {
        Field::Ipv4 => fixed_len(4, octets),
        Field::Ipv6 => fixed_len(16, octets),
        Field::Name => lower_name_len(octets),
        Field::Number8 => fixed_len(1, octets),
        Field::Number16 => fixed_len(2, octets),
        Field::Number32 => fixed_len(4, octets),
        Field::Tag => tag_len(octets),
    }
}

/// So many octets, where they are there.
fn fixed_len(len: usize, octets: &[u8]) -> Option<usize>
    ensures some { IfSome result (λ n. (n ≡ len) × (len ≤ length octets.now)) }
    ensures none { IfNone result (length octets.now < len) }
{
    if octets.len() < len {
        return None;
    }
    Some(len)
}

/// How many octets at the front are a tag and its length.
fn tag_len(octets: &[u8]) -> Option<usize>
    ensures within { IfSome result (λ n. n ≤ length octets.now) }
    ensures some { IfSome result (λ n. IsField Field.Tag (take n octets.now)) }
    ensures only { IfSome result (λ n. (tag rest : List ℕ) → IsTag tag
        → octets.now ≡ length tag ∷ tag ++ rest → length tag + 1 ≡ n) }
    ensures none { IfNone result
        ((tag rest : List ℕ) → IsTag tag → octets.now ≡ length tag ∷ tag ++ rest → ⊥) }
{
    let len = string_len(octets)?;
    if !is_tag(behind(front(octets, len), 1)) {
        return None;
    }
    Some(len)
}

/// How many octets at the front are a string and its length.
pub fn string_len(octets: &[u8]) -> Option<usize>
    ensures within { IfSome result (λ n. n ≤ length octets.now) }
    ensures some { IfSome result (λ n. (string rest : List ℕ) × IsShort string
        × (octets.now ≡ string_octets string ++ rest) × (n ≡ length string + 1)) }
    ensures only { IfSome result (λ n. (string rest : List ℕ)
        → octets.now ≡ string_octets string ++ rest → length string + 1 ≡ n) }
    ensures none { IfNone result
        ((string rest : List ℕ) → octets.now ≡ string_octets string ++ rest → ⊥) }
{
    let [n, rest @ ..] = octets else {
        return None;
    };
    let n = *n as usize;
    if n > rest.len() {
        return None;
    }
    Some(n + 1)
}

/// Whether these are 1 to 15 letters and digits, the tag of a CAA property (RFC 8659, 4.1).
pub fn is_tag(octets: &[u8]) -> bool
    ensures { IsTrue result ↔ IsTag octets.now }
{
    if octets.is_empty() || octets.len() > 15 {
        return false;
    }
    are_plain(octets)
}

/// Whether each octet is a letter or a digit.
fn are_plain(octets: &[u8]) -> bool
    ensures { IsTrue result ↔ AllByRecursion (λ b. is_letter_or_digit b ≡ true) octets.now }
{
    for b in octets {
        if !is_letter_or_digit(*b) {
            return false;
        }
    }
    true
}

/// Whether an octet is a letter or a digit.
fn is_letter_or_digit(b: u8) -> bool
    ensures { result ≡ is_letter_or_digit b }
{
    matches!(b, b'A'..=b'Z' | b'a'..=b'z' | b'0'..=b'9')
}
