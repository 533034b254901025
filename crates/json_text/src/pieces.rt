//! Pieces that stand for themselves, numbers, truth values, and octets in hexadecimal digits.

ghost use Rattle.std.specs.Prelude.{◌≡◌, ◌+◌, ◌*◌, ◌≤◌, ◌++◌, ◌∷◌, [], length, vec_capacity};
ghost use Rattle.std.specs.Prelude.{vec_len};
ghost use Rattle.std.specs.Fmt.{decimal};
ghost use Rattle.hex.specs.Hex.{encode_lower};
ghost use Rattle.json.specs.Print.{escape, quoted, token_text};
ghost use Rattle.json.specs.Token as token;

use itoa::Buffer;

/// The hexadecimal digits, in lower case.
const DIGITS: &[u8; 16] = b"0123456789abcdef";

/// Appends a piece as it is.
pub fn put(piece: &[u8], into: &mut Vec<u8>)
    requires { vec_len into.old + length piece.now ≤ vec_capacity into.old }
    ensures text { into.new.items ≡ into.old.items ++ piece.now }
    ensures len { vec_len into.new ≡ vec_len into.old + length piece.now }
    ensures room { vec_capacity into.old ≤ vec_capacity into.new }
{
    match into.extend_from_slice(piece) {
        Ok(()) => {}
        Err(_) => unreachable!(),
    }
}

/// Appends a number in decimal digits.
pub fn put_number(n: u64, into: &mut Vec<u8>)
    requires { vec_len into.old + 20 ≤ vec_capacity into.old }
    ensures text { into.new.items ≡ into.old.items ++ decimal n }
    ensures len { vec_len into.new ≤ vec_len into.old + 20 }
    ensures room { vec_capacity into.old ≤ vec_capacity into.new }
{
    put(Buffer::new().format(n).as_bytes(), into);
}

/// Appends `true` or `false`.
pub fn put_flag(flag: bool, into: &mut Vec<u8>)
    requires { vec_len into.old + 5 ≤ vec_capacity into.old }
    ensures text { into.new.items ≡ into.old.items ++ token_text (token.boolean flag) }
    ensures len { vec_len into.new ≤ vec_len into.old + 5 }
    ensures room { vec_capacity into.old ≤ vec_capacity into.new }
{
    if flag {
        put(b"true", into);
    } else {
        put(b"false", into);
    }
}

/// Appends octets in hexadecimal digits, in lower case and in quotes.
pub fn put_hex(octets: &[u8], into: &mut Vec<u8>)
    requires { vec_len into.old + (2 * length octets.now + 2) ≤ vec_capacity into.old }
    ensures text { into.new.items ≡ into.old.items ++ quoted (encode_lower octets.now) }
    ensures len { vec_len into.new ≡ vec_len into.old + (2 * length octets.now + 2) }
    ensures room { vec_capacity into.old ≤ vec_capacity into.new }
{
    put(b"\"", into);
    put_digits(octets, into);
    put(b"\"", into);
}

/// Appends octets in hexadecimal digits, of which none has an escape.
#[tactic(auto, using(crate::proofs::Digits::encode_next), unfolding(hex::specs::Hex::encode_with))]
fn put_digits(octets: &[u8], into: &mut Vec<u8>)
    requires { vec_len into.old + 2 * length octets.now ≤ vec_capacity into.old }
    ensures text { into.new.items ≡ into.old.items ++ encode_lower octets.now }
    ensures bare { escape (encode_lower octets.now) ≡ encode_lower octets.now }
    ensures len { vec_len into.new ≡ vec_len into.old + 2 * length octets.now }
    ensures room { vec_capacity into.old ≤ vec_capacity into.new }
{
    for octet in octets {
        put(&hex_digits(*octet), into);
    }
}

/// The two hexadecimal digits of an octet.
fn hex_digits(octet: u8) -> [u8; 2]
    ensures { result ≡ encode_lower (octet ∷ []) }
{
    [DIGITS[(octet / 16) as usize], DIGITS[(octet % 16) as usize]]
}
