//! The data of records, with names as names are written.

ghost use Rattle.std.specs.Prelude.{◌≡◌, ◌+◌, ◌≤◌, ◌++◌, ◌∷◌, [], length, take, drop};
ghost use Rattle.rdata_layout.specs.Stored.{labels_of};
ghost use Rattle.rdata_layout.specs.Whole.{IsWire};
ghost use Rattle.rdata_layout.specs.Fields.{IsField};
ghost use Rattle.rdata_layout.specs.Layout.{AreFields, IsLayout, tail_of};
ghost use Rattle.rdata_layout.specs.declared.fields.Field.TheVariants as field;
ghost use Rattle.rdata_layout.specs.declared.fields.Tail.{Tail};
ghost use Rattle.rdata_layout.specs.declared.fields.Tail.TheVariants.{Nothing};
ghost use Rattle.dns_wire.specs.Data.{BeginsWith, data_octets, field_octets, fields_octets, has_pointers};
ghost use Rattle.rdata_layout.specs.Fields.{field_size};

use crate::pointers::{add_octets, append};
use octets::{behind, front};
use rdata_layout::{Field, Name, RType, field_len, fields_of};

/// Writes the data of a value, where `asked` is the name in the question, and says where they end.
pub(crate) fn add_data(
    buffer: &mut [u8],
    at: usize,
    asked: &Name,
    rtype: RType,
    wire: &[u8],
) -> usize
    requires layout { IsLayout rtype wire.now }
    requires room { at + length wire.now ≤ length buffer.old }
    ensures end { result ≡ at + length (data_octets asked.now rtype wire.now) }
    ensures shorter { result ≤ at + length wire.now }
    ensures written { take result buffer.new ≡ take at buffer.old ++ data_octets asked.now rtype wire.now }
{
    if !has_pointers(rtype) {
        return append(buffer, at, wire);
    }
    match rtype {
        RType::Ns | RType::Cname | RType::Ptr => add_one_name(buffer, at, asked.octets(), wire),
        RType::Mx => add_exchange(buffer, at, asked.octets(), wire),
        _ => add_fields(buffer, at, asked.octets(), fields_of(rtype), wire),
    }
}

/// Whether names in data of the type may be pointers.
fn has_pointers(rtype: RType) -> bool
    ensures { result ≡ has_pointers rtype }
{
    matches!(
        rtype,
        RType::Ns | RType::Cname | RType::Soa | RType::Ptr | RType::Mx
    )
}

/// Writes data that are one name, and says where they end.
fn add_one_name(buffer: &mut [u8], at: usize, asked: &[u8], octets: &[u8]) -> usize
    requires asked { IsWire asked.now }
    requires name { AreFields (field.Name ∷ []) Nothing octets.now }
    requires room { at + length octets.now ≤ length buffer.old }
    ensures end { result
        ≡ at + length (fields_octets (labels_of asked.now) (field.Name ∷ []) octets.now) }
    ensures shorter { result ≤ at + length octets.now }
    ensures written { take result buffer.new ≡ take at buffer.old
        ++ fields_octets (labels_of asked.now) (field.Name ∷ []) octets.now }
{
    add_octets(buffer, at, asked, octets)
}

/// Writes a preference and the name behind it, and says where they end.
fn add_exchange(buffer: &mut [u8], at: usize, asked: &[u8], octets: &[u8]) -> usize
    requires asked { IsWire asked.now }
    requires exchange { AreFields (field.Number16 ∷ field.Name ∷ []) Nothing octets.now }
    requires room { at + length octets.now ≤ length buffer.old }
    ensures end { result ≡ at + length
        (fields_octets (labels_of asked.now) (field.Number16 ∷ field.Name ∷ []) octets.now) }
    ensures shorter { result ≤ at + length octets.now }
    ensures written { take result buffer.new ≡ take at buffer.old
        ++ fields_octets (labels_of asked.now) (field.Number16 ∷ field.Name ∷ []) octets.now }
{
    let end = append(buffer, at, front(octets, 2));
    add_octets(buffer, end, asked, behind(octets, 2))
}

/// Writes fields one after another and what stands behind them, and says where they end.
fn add_fields(buffer: &mut [u8], at: usize, asked: &[u8], fields: &[Field], octets: &[u8]) -> usize
    requires asked { IsWire asked.now }
    requires fields { (end : Tail) × AreFields fields.now end octets.now }
    requires room { at + length octets.now ≤ length buffer.old }
    ensures end { result ≡ at + length (fields_octets (labels_of asked.now) fields.now octets.now) }
    ensures shorter { result ≤ at + length octets.now }
    ensures written { take result buffer.new ≡ take at buffer.old
        ++ fields_octets (labels_of asked.now) fields.now octets.now }
{
    let mut from = 0;
    let mut to = at;
    for field in fields {
        let len = size_of(*field, behind(octets, from));
        to = add_field(buffer, to, asked, *field, piece_at(octets, from, len));
        from += len;
    }
    append(buffer, to, behind(octets, from))
}

/// So many octets from a place on.
fn piece_at(octets: &[u8], at: usize, len: usize) -> &[u8]
    requires { at + len ≤ length octets.now }
    ensures { result.now ≡ take len (drop at octets.now) }
{
    &octets[at..at + len]
}

/// How many octets at the front are the field.
fn size_of(field: Field, octets: &[u8]) -> usize
    requires { BeginsWith field octets.now }
    ensures within { result ≤ length octets.now }
    ensures size { result ≡ field_size field octets.now }
    ensures field { IsField field (take result octets.now) }
{
    match field_len(field, octets) {
        Some(len) => len,
        None => unreachable!(),
    }
}

/// Writes a field, and says where it ends.
fn add_field(buffer: &mut [u8], at: usize, asked: &[u8], field: Field, octets: &[u8]) -> usize
    requires asked { IsWire asked.now }
    requires field { IsField field octets.now }
    requires room { at + length octets.now ≤ length buffer.old }
    ensures end { result ≡ at + length (field_octets (labels_of asked.now) field octets.now) }
    ensures shorter { result ≤ at + length octets.now }
    ensures written { take result buffer.new ≡ take at buffer.old
        ++ field_octets (labels_of asked.now) field octets.now }
{
    match field {
        Field::Name => add_octets(buffer, at, asked, octets),
        _ => append(buffer, at, octets),
    }
}
