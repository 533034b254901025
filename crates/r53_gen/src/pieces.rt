//! Pieces of a text, each written behind the first octets of a buffer.

ghost use Rattle.std.specs.Prelude.{◌≡◌, ◌+◌, ◌*◌, ◌≤◌, ◌++◌, length, take};
ghost use Rattle.std.specs.Fmt.{decimal};
ghost use Rattle.hex.specs.Hex.{encode_lower};

use hex::encode_to_slice;
use itoa::Buffer;
use octets::put_at;

/// Writes a piece, and answers where it ends.
pub(crate) fn put(piece: &[u8], at: usize, into: &mut [u8]) -> usize
    requires { at + length piece.now ≤ length into.old }
    ensures text { take result into.new ≡ take at into.old ++ piece.now }
    ensures end { result ≡ at + length piece.now }
    ensures room { length into.new ≡ length into.old }
{
    put_at(into, at, piece);
    at + piece.len()
}

/// Writes a number in decimal digits.
pub(crate) fn put_number(n: u32, at: usize, into: &mut [u8]) -> usize
    requires { at + 10 ≤ length into.old }
    ensures text { take result into.new ≡ take at into.old ++ decimal n }
    ensures end { result ≡ at + length (decimal n) }
    ensures within { result ≤ at + 10 }
    ensures room { length into.new ≡ length into.old }
{
    put(Buffer::new().format(n).as_bytes(), at, into)
}

/// Writes octets in hexadecimal digits.
pub(crate) fn put_hex(octets: &[u8], at: usize, into: &mut [u8]) -> usize
    requires { at + 2 * length octets.now ≤ length into.old }
    ensures text { take result into.new ≡ take at into.old ++ encode_lower octets.now }
    ensures end { result ≡ at + length (encode_lower octets.now) }
    ensures within { result ≤ at + 2 * length octets.now }
    ensures room { length into.new ≡ length into.old }
{
    let end = at + 2 * octets.len();
    match encode_to_slice(octets, &mut into[at..end]) {
        Ok(()) => end,
        Err(_) => unreachable!(),
    }
}
