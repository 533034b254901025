//! The fields of each type, and whether octets are a value of it.

ghost use Rattle.std.specs.Prelude.{◌≡◌, ◌≤◌, length, drop, IsTrue, ◌↔◌};
ghost use Rattle.rdata_layout.specs.Layout.{fields_of, tail_of, AreFields, AreStrings, IsLayout, IsTail, IsShort};

use crate::fields::{Field, Tail};
use crate::scan::{field_len, string_len};
use crate::types::RType;
use octets::behind;

/// The most octets of a value.
pub const MOST_OCTETS: usize = 4000;

/// The fields that every value of the type has, in their order.
pub fn fields_of(rtype: RType) -> &'static [Field]
    ensures { result.now ≡ fields_of rtype }
{
    match rtype {
        RType::A => &[Field::Ipv4],
        RType::Ns | RType::Cname | RType::Ptr => &[Field::Name],
        RType::Soa => &[
            Field::Name,
            Field::Name,
            Field::Number32,
            Field::Number32,
            Field::Number32,
            Field::Number32,
            Field::Number32,
        ],
        RType::Mx => &[Field::Number16, Field::Name],
        RType::Txt | RType::Spf => &[],
        RType::Aaaa => &[Field::Ipv6],
        RType::Srv => &[
            Field::Number16,
            Field::Number16,
            Field::Number16,
            Field::Name,
        ],
        RType::Caa => &[Field::Number8, Field::Tag],
    }
}

/// What stands behind those fields.
pub fn tail_of(rtype: RType) -> Tail
    ensures { result ≡ tail_of rtype }
{
    match rtype {
        RType::Txt | RType::Spf => Tail::Strings,
        RType::Caa => Tail::Value,
        _ => Tail::Nothing,
    }
}

/// Whether the octets are a value of the type.
pub fn is_layout(rtype: RType, octets: &[u8]) -> bool
    ensures { IsTrue result ↔ IsLayout rtype octets.now }
{
    octets.len() <= MOST_OCTETS && are_fields(fields_of(rtype), tail_of(rtype), octets)
}

/// Whether the octets are these fields, one after another, and then the tail.
fn are_fields(fields: &[Field], tail: Tail, octets: &[u8]) -> bool
    ensures { IsTrue result ↔ AreFields fields.now tail octets.now }
{
    let mut at = 0;
    for field in fields {
        let Some(len) = field_len(*field, behind(octets, at)) else {
            return false;
        };
        at += len;
    }
    is_tail(tail, behind(octets, at))
}

/// Whether the octets are the tail.
fn is_tail(tail: Tail, octets: &[u8]) -> bool
    ensures { IsTrue result ↔ IsTail tail octets.now }
{
    match tail {
        Tail::Nothing => octets.is_empty(),
        Tail::Strings => !octets.is_empty() && are_strings(octets),
        Tail::Value => octets.len() <= 255,
    }
}

/// Whether the octets are strings, one after another.
fn are_strings(octets: &[u8]) -> bool
    ensures { IsTrue result ↔ AreStrings octets.now }
{
    let mut at = 0;
    while at < octets.len() {
        let Some(len) = string_len(behind(octets, at)) else {
            return false;
        };
        at += len;
    }
    true
}
