//! Zone order: the order of the keys of sets.

ghost use Rattle.std.specs.Prelude.{◌≡◌};
ghost use Rattle.std.specs.Cmp.Lexicographic.{slice_cmp};
ghost use Rattle.std.specs.Option.{option_copied};
ghost use Rattle.std.specs.Ordering.{nat_cmp};
ghost use Rattle.zone_model.specs.Keys.{ident_cmp, key_cmp};

use record_set::{Ident, SetKey};
use std::cmp::Ordering;

/// The order of two keys in a zone: by name, then by the type's number, then by the identifier's
/// bytes, none first.
pub fn key_cmp(x: &SetKey, y: &SetKey) -> Ordering
    ensures { result ≡ key_cmp x.now y.now }
{
    x.name
        .cmp(&y.name)
        .then(x.rtype.number().cmp(&y.rtype.number()))
        .then(ident_cmp(x.ident.as_ref(), y.ident.as_ref()))
}

/// The order of two identifiers: by their bytes, none first.
pub fn ident_cmp(ident: Option<&Ident>, other: Option<&Ident>) -> Ordering
    ensures { result ≡ ident_cmp (option_copied ident.entry) (option_copied other.entry) }
{
    match (ident, other) {
        (None, None) => Ordering::Equal,
        (None, Some(_)) => Ordering::Less,
        (Some(_), None) => Ordering::Greater,
        (Some(ident), Some(other)) => bytes_cmp(ident.bytes(), other.bytes()),
    }
}

/// The order of two texts.
fn bytes_cmp(text: &[u8], other: &[u8]) -> Ordering
    ensures { result ≡ slice_cmp nat_cmp text.now other.now }
{
    text.cmp(other)
}
