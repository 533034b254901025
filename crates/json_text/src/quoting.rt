//! Texts in quotes (RFC 8259, 7).

ghost use Rattle.std.specs.Prelude.{◌≡◌, ◌+◌, ◌*◌, ◌<◌, ◌≤◌, ◌++◌, ◌∷◌, [], length, false, IsTrue};
ghost use Rattle.std.specs.Prelude.{vec_capacity, vec_len};
ghost use Rattle.std.specs.Char.{digit_char};
ghost use Rattle.json.specs.Print.{escape, escape_byte, escape_letter, quoted};

use crate::pieces::put;

/// Appends a text in quotes, with the shortest escapes: a quote, a backslash and control characters
/// have one, and every other octet stands for itself.
pub fn put_quoted(text: &[u8], into: &mut Vec<u8>)
    requires { vec_len into.old + (6 * length text.now + 2) ≤ vec_capacity into.old }
    ensures text { into.new.items ≡ into.old.items ++ quoted text.now }
    ensures len { vec_len into.new ≤ vec_len into.old + (6 * length text.now + 2) }
    ensures room { vec_capacity into.old ≤ vec_capacity into.new }
{
    put(b"\"", into);
    put_contents(text, into);
    put(b"\"", into);
}

/// Appends a text with its escapes.
fn put_contents(text: &[u8], into: &mut Vec<u8>)
    requires { vec_len into.old + 6 * length text.now ≤ vec_capacity into.old }
    ensures text { into.new.items ≡ into.old.items ++ escape text.now }
    ensures len { vec_len into.new ≤ vec_len into.old + 6 * length text.now }
    ensures room { vec_capacity into.old ≤ vec_capacity into.new }
{
    if is_plain(text) {
        return put(text, into);
    }
    put_escaped(text, into);
}

/// Whether no octet of a text has an escape.
#[tactic(auto, using(crate::proofs::Escapes::escape_more))]
fn is_plain(text: &[u8]) -> bool
    ensures { IsTrue result → escape text.now ≡ text.now }
{
    for b in text {
        if has_escape(*b) {
            return false;
        }
    }
    true
}

/// Whether an octet has an escape.
#[tactic(auto, using(crate::proofs::Escapes::plain))]
fn has_escape(b: u8) -> bool
    ensures { result ≡ false → escape_byte b ≡ b ∷ [] }
{
    if b < 0x20 {
        return true;
    }
    b == b'"' || b == b'\\'
}

/// Appends a text octet by octet.
#[tactic(auto, using(crate::proofs::Escapes::escape_more))]
fn put_escaped(text: &[u8], into: &mut Vec<u8>)
    requires { vec_len into.old + 6 * length text.now ≤ vec_capacity into.old }
    ensures text { into.new.items ≡ into.old.items ++ escape text.now }
    ensures len { vec_len into.new ≤ vec_len into.old + 6 * length text.now }
    ensures room { vec_capacity into.old ≤ vec_capacity into.new }
{
    for b in text {
        put_octet(*b, into);
    }
}

/// Appends an octet of a text.
fn put_octet(b: u8, into: &mut Vec<u8>)
    requires { vec_len into.old + 6 ≤ vec_capacity into.old }
    ensures text { into.new.items ≡ into.old.items ++ escape_byte b }
    ensures len { vec_len into.new ≤ vec_len into.old + 6 }
    ensures room { vec_capacity into.old ≤ vec_capacity into.new }
{
    let letter = escape_letter(b);
    if letter > 0 {
        return put(&[b'\\', letter], into);
    }
    if b < 0x20 {
        return put(
            &[b'\\', b'u', b'0', b'0', digit(b / 16), digit(b % 16)],
            into,
        );
    }
    put(&[b], into);
}

/// The letter of an octet's short escape, or 0 where it has none.
fn escape_letter(b: u8) -> u8
    ensures { result ≡ escape_letter b }
{
    match b {
        b'"' => b'"',
        b'\\' => b'\\',
        8 => b'b',
        9 => b't',
        10 => b'n',
        12 => b'f',
        13 => b'r',
        _ => 0,
    }
}

/// A hexadecimal digit.
fn digit(value: u8) -> u8
    requires { value < 16 }
    ensures { result ≡ digit_char value }
{
    if value < 10 {
        return b'0' + value;
    }
    b'a' + (value - 10)
}
