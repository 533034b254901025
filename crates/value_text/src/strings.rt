//! Strings in quotes.

ghost use Rattle.std.specs.Prelude.{◌≡◌, ◌+◌, ◌*◌, ◌<◌, ◌≤◌, ◌++◌, length, take, drop, slice_index};
ghost use Rattle.std.specs.Prelude.{true, false, Some, None, IfSome, IfNone};
ghost use Rattle.value_text.specs.Strings.{is_printable, is_escaped, escape, character};
ghost use Rattle.value_text.specs.Strings.{string_of_text, character_text, string_text};

use octets::{behind, octal_at, put_at};

/// A character of a string's text.
#[derive(Clone, Copy)]
struct Character {
    /// The byte that it stands for.
    value: u8,
    /// How many bytes of it stand behind its first.
    more: usize,
}

/// Reads the string of a field in quotes into the front of the array, and says how long it is.
///
/// None exactly where the field is no string of at most 255 bytes: the front of the array may
/// have changed then.
pub fn read_string(field: &[u8], into: &mut [u8; 255]) -> Option<usize>
    ensures some { IfSome result (λ len. string_of_text field.now ≡ Some (take len into.new)) }
    ensures fits { IfSome result (λ len. len ≤ 255) }
    ensures quotes { IfSome result (λ len. len + 2 ≤ length field.now) }
    ensures kept { IfSome result (λ len. drop len into.new ≡ drop len into.old) }
    ensures none { IfNone result (string_of_text field.now ≡ None) }
{
    if field.is_empty() {
        return None;
    }
    if field[0] != b'"' {
        return None;
    }
    let mut len = 0;
    let mut at = 1;
    while at < field.len() {
        if field[at] == b'"' {
            if at + 1 < field.len() {
                return None;
            }
            return Some(len);
        }
        let Some(c) = character_at(field, at) else {
            return None;
        };
        if len == 255 {
            return None;
        }
        into[len] = c.value;
        len += 1;
        at += c.more + 1;
    }
    None
}

/// The character at this place, where no quote stands.
fn character_at(text: &[u8], at: usize) -> Option<Character>
    requires { at < length text.now }
    ensures exact { result ≡ character (slice_index text.now at) (drop (at + 1) text.now) }
    ensures room { IfSome result (λ c. at + c.more < length text.now) }
{
    let b = text[at];
    if b == b'\\' {
        return escape(behind(text, at + 1));
    }
    if !is_printable(b) {
        return None;
    }
    Some(Character { value: b, more: 0 })
}

/// The character of a backslash before these bytes.
fn escape(rest: &[u8]) -> Option<Character>
    ensures exact { result ≡ escape rest.now }
    ensures room { IfSome result (λ c. c.more ≤ length rest.now) }
{
    if rest.is_empty() {
        return None;
    }
    if is_escaped(rest[0]) {
        return Some(Character {
            value: rest[0],
            more: 1,
        });
    }
    let Some(value) = octal_at(rest) else {
        return None;
    };
    Some(Character { value, more: 3 })
}

/// Writes a string in quotes at this place, and says where its text ends.
///
/// There is room for the text of any string of this length: four bytes for each of its bytes, and
/// the quotes.
pub fn write_string(string: &[u8], into: &mut [u8], at: usize) -> usize
    requires { at + 4 * length string.now + 2 ≤ length into.old }
    ensures end { result ≡ at + length (string_text string.now) }
    ensures written { into.new ≡ take at into.old ++ string_text string.now ++ drop result into.old }
    ensures short { result ≤ at + 4 * length string.now + 2 }
    ensures within { result ≤ length into.old }
{
    let mut end = put(b"\"", into, at);
    for b in string {
        end = write_character(*b, into, end);
    }
    put(b"\"", into, end)
}

/// Writes a byte of a string at this place, and says where its text ends.
fn write_character(b: u8, into: &mut [u8], at: usize) -> usize
    requires { at + 4 ≤ length into.old }
    ensures end { result ≡ at + length (character_text b) }
    ensures short { result ≤ at + 4 }
    ensures written { take result into.new ≡ take at into.old ++ character_text b }
    ensures kept { drop result into.new ≡ drop result into.old }
{
    if is_escaped(b) {
        return put(&[b'\\', b], into, at);
    }
    if is_printable(b) {
        return put(&[b], into, at);
    }
    put(
        &[b'\\', b'0' + b / 64, b'0' + b / 8 % 8, b'0' + b % 8],
        into,
        at,
    )
}

/// Writes a piece at this place, and says where it ends.
fn put(piece: &[u8], into: &mut [u8], at: usize) -> usize
    requires { at + length piece.now ≤ length into.old }
    ensures end { result ≡ at + length piece.now }
    ensures written { take result into.new ≡ take at into.old ++ piece.now }
    ensures kept { drop result into.new ≡ drop result into.old }
{
    put_at(into, at, piece);
    at + piece.len()
}

/// Whether a byte is printable ASCII or a space.
fn is_printable(b: u8) -> bool
    ensures { result ≡ is_printable b }
{
    b >= 0x20 && b <= 0x7e
}

/// Whether a byte stands for itself behind a backslash, and not without one.
fn is_escaped(b: u8) -> bool
    ensures { result ≡ is_escaped b }
{
    b == b'"' || b == b'\\'
}
