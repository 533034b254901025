//! The texts of fields, written to a place of a buffer.

ghost use Rattle.std.specs.Prelude.{◌≡◌, ◌+◌, ◌*◌, ◌≤◌, ◌++◌, length, take, drop};
ghost use Rattle.std.specs.Fmt.{decimal};
ghost use Rattle.rdata_layout.specs.Stored.{labels_of};
ghost use Rattle.rdata_layout.specs.Written.{text_of};
ghost use Rattle.rdata_layout.specs.Fields.{IsField};
ghost use Rattle.field_text.specs.Written.{text_of_field};

use address_text::{write_ipv4, write_ipv6};
use itoa::Buffer;
use octets::{behind, front, long_at, number_at, put_at};
use rdata_layout::{Field, Name};

/// Writes the text of a field's octets at a place, and says where it ends.
///
/// There is room for the text of any field of so many octets: four bytes for each, of which one is
/// left over.
pub fn write_field(field: Field, octets: &[u8], into: &mut [u8], at: usize) -> usize
    requires field { IsField field octets.now }
    requires room { at + 4 * length octets.now ≤ length into.old }
    ensures end { result ≡ at + length (text_of_field field octets.now) }
    ensures written { into.new ≡ take at into.old ++ text_of_field field octets.now
        ++ drop result into.old }
    ensures short { result + 1 ≤ at + 4 * length octets.now }
{
    match field {
        Field::Ipv4 => write_ipv4(octets, into, at),
        Field::Ipv6 => write_ipv6(octets, into, at),
        Field::Name => write_name(octets, into, at),
        Field::Number8 => write_octet(octets[0], into, at),
        Field::Number16 => write_number(number_at(octets, 0), into, at),
        Field::Number32 => write_long_number(long_at(octets, 0), into, at),
        Field::Tag => put(behind(octets, 1), into, at),
    }
}

/// Writes the text of a name's octets.
fn write_name(octets: &[u8], into: &mut [u8], at: usize) -> usize
    requires name { IsField Field.Name octets.now }
    requires room { at + 4 * length octets.now ≤ length into.old }
    ensures end { result ≡ at + length (text_of (labels_of octets.now)) }
    ensures written { into.new ≡ take at into.old ++ text_of (labels_of octets.now)
        ++ drop result into.old }
    ensures short { result + 1 ≤ at + 4 * length octets.now }
{
    let mut text = [0; 1024];
    let len = name_of(octets).write_text(&mut text);
    put(front(&text, len), into, at)
}

/// The name of its octets.
fn name_of(octets: &[u8]) -> Name
    requires { IsField Field.Name octets.now }
    ensures same { result ≡ labels_of octets.now }
    ensures short { length (text_of result) + 1 ≤ 4 * length octets.now }
    ensures fits { length octets.now ≤ 255 }
{
    match Name::from_wire(octets) {
        Some((name, _)) => name,
        None => unreachable!(),
    }
}

/// Writes a number of 8 bits in decimal digits.
fn write_octet(n: u8, into: &mut [u8], at: usize) -> usize
    requires { at + 3 ≤ length into.old }
    ensures end { result ≡ at + length (decimal n) }
    ensures written { into.new ≡ take at into.old ++ decimal n ++ drop result into.old }
    ensures short { result ≤ at + 3 }
{
    put(Buffer::new().format(n).as_bytes(), into, at)
}

/// Writes a number of 16 bits in decimal digits.
fn write_number(n: u16, into: &mut [u8], at: usize) -> usize
    requires { at + 5 ≤ length into.old }
    ensures end { result ≡ at + length (decimal n) }
    ensures written { into.new ≡ take at into.old ++ decimal n ++ drop result into.old }
    ensures short { result ≤ at + 5 }
{
    put(Buffer::new().format(n).as_bytes(), into, at)
}

/// Writes a number of 32 bits in decimal digits.
fn write_long_number(n: u32, into: &mut [u8], at: usize) -> usize
    requires { at + 10 ≤ length into.old }
    ensures end { result ≡ at + length (decimal n) }
    ensures written { into.new ≡ take at into.old ++ decimal n ++ drop result into.old }
    ensures short { result ≤ at + 10 }
{
    put(Buffer::new().format(n).as_bytes(), into, at)
}

/// Writes a piece at a place, and says where it ends.
fn put(piece: &[u8], into: &mut [u8], at: usize) -> usize
    requires { at + length piece.now ≤ length into.old }
    ensures end { result ≡ at + length piece.now }
    ensures written { into.new ≡ take at into.old ++ piece.now ++ drop result into.old }
{
    put_at(into, at, piece);
    at + piece.len()
}
