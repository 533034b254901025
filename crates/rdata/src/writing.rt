//! The text of a value, field by field, with a space between, written from its octets.

ghost use Rattle.std.specs.Prelude.{◌≡◌, ℕ, ◌+◌, ◌*◌, ◌≤◌, ◌<◌, List, [], ◌++◌, length, take, drop, map};
ghost use Rattle.field_text.specs.Strings.{string_text};
ghost use Rattle.field_text.specs.Fields.{IsField};
ghost use Rattle.field_text.specs.Layout.{AreFields, AreStrings, IsLayout, IsTail};
ghost use Rattle.field_text.specs.Written.{text_of_field};
ghost use Rattle.rdata.specs.Written.{strings_of, tail_texts, field_texts, separated, joined_from, text_of};
ghost use Rattle.field_text.specs.Fields.{field_size};

use field_text::{Field, RType, Tail, field_len, fields_of, tail_of, write_field, write_string};
use octets::{behind, front};

/// Writes the text of octets in the type's layout to the front, and says how long it is (FORMATS,
/// Texts of values).
pub fn write_text(rtype: RType, wire: &[u8], into: &mut [u8; 16384]) -> usize
    requires { IsLayout rtype wire.now }
    ensures written { take result into.new ≡ text_of rtype wire.now }
    ensures size { result ≡ length (text_of rtype wire.now) }
    ensures rest { drop result into.new ≡ drop result into.old }
{
    write_fields(fields_of(rtype), tail_of(rtype), wire, into)
}

/// Writes the text of octets that are fields of these kinds and the tail to the front, and says how
/// long it is.
fn write_fields(kinds: &[Field], tail: Tail, octets: &[u8], into: &mut [u8]) -> usize
    requires layout { AreFields kinds.now tail octets.now }
    requires room { 4 * length octets.now + 3 ≤ length into.old }
    ensures written { take result into.new
        ≡ joined_from [] (field_texts kinds.now tail octets.now) }
    ensures kept { drop result into.new ≡ drop result into.old }
    ensures within { result ≤ length into.old }
{
    let mut at = 0;
    let mut end = 0;
    for kind in kinds {
        let piece = field_in_front(*kind, behind(octets, at));
        end = write_next(*kind, piece, into, end);
        at += piece.len();
    }
    write_tail(tail, behind(octets, at), into, end)
}

/// The field of this kind that octets begin with.
fn field_in_front(kind: Field, octets: &[u8]) -> &[u8]
    requires { (piece : List ℕ) × (rest : List ℕ) × IsField kind piece
        × (octets.now ≡ piece ++ rest) }
    ensures front { result.now ≡ take (field_size kind octets.now) octets.now }
    ensures field { IsField kind result.now }
    ensures len { length result.now ≡ field_size kind octets.now }
    ensures within { length result.now ≤ length octets.now }
{
    match field_len(kind, octets) {
        Some(len) => front(octets, len),
        None => unreachable!(),
    }
}

/// Writes the text of a field behind what stands before a place, and says where it ends.
fn write_next(kind: Field, piece: &[u8], into: &mut [u8], at: usize) -> usize
    requires field { IsField kind piece.now }
    requires room { at + 4 * length piece.now + 1 ≤ length into.old }
    ensures written { take result into.new ≡ separated (take at into.old)
        ++ text_of_field kind piece.now }
    ensures kept { drop result into.new ≡ drop result into.old }
    ensures later { at ≤ result }
    ensures short { result ≤ at + 4 * length piece.now }
{
    let start = separate(into, at);
    write_field(kind, piece, into, start)
}

/// Writes the texts of the tail behind what stands before a place, and says where they end.
fn write_tail(tail: Tail, octets: &[u8], into: &mut [u8], at: usize) -> usize
    requires tail { IsTail tail octets.now }
    requires room { at + 4 * length octets.now + 3 ≤ length into.old }
    ensures written { take result into.new
        ≡ joined_from (take at into.old) (tail_texts tail octets.now) }
    ensures kept { drop result into.new ≡ drop result into.old }
    ensures later { at ≤ result }
    ensures within { result ≤ length into.old }
{
    match tail {
        Tail::Nothing => at,
        Tail::Strings => write_strings(octets, into, at),
        Tail::Value => write_next_string(octets, into, at),
    }
}

/// Writes the texts of strings.
fn write_strings(octets: &[u8], into: &mut [u8], at: usize) -> usize
    requires strings { AreStrings octets.now }
    requires room { at + 4 * length octets.now + 3 ≤ length into.old }
    ensures written { take result into.new
        ≡ joined_from (take at into.old) (map string_text (strings_of octets.now)) }
    ensures kept { drop result into.new ≡ drop result into.old }
    ensures later { at ≤ result }
    ensures within { result ≤ length into.old }
{
    let mut place = 0;
    let mut end = at;
    while place < octets.len() {
        let len = octets[place] as usize;
        end = write_next_string(front(behind(octets, place + 1), len), into, end);
        place += len + 1;
    }
    end
}

/// Writes the text of a string behind what stands before a place, and says where it ends.
fn write_next_string(string: &[u8], into: &mut [u8], at: usize) -> usize
    requires { at + 4 * length string.now + 3 ≤ length into.old }
    ensures written { take result into.new ≡ separated (take at into.old)
        ++ string_text string.now }
    ensures kept { drop result into.new ≡ drop result into.old }
    ensures later { at ≤ result }
    ensures short { result ≤ at + 4 * length string.now + 3 }
{
    let start = separate(into, at);
    write_string(string, into, start)
}

/// Writes a space behind what stands before a place, where that isn't the front, and says where it
/// ends.
fn separate(into: &mut [u8], at: usize) -> usize
    requires { at < length into.old }
    ensures written { take result into.new ≡ separated (take at into.old) }
    ensures kept { drop result into.new ≡ drop result into.old }
    ensures later { at ≤ result }
    ensures short { result ≤ at + 1 }
{
    if at == 0 {
        return 0;
    }
    into[at] = b' ';
    at + 1
}
