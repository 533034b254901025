//! Pieces that are written to a place of a buffer.

ghost use Rattle.std.specs.Prelude.{◌+◌, ◌≤◌, length};
ghost use Rattle.std.specs.Fmt.{decimal};
ghost use Rattle.address_text.specs.Wrote.{Wrote};

use itoa::Buffer;
use octets::put_at;

/// Writes a piece at a place, and says where it ends.
pub fn put(piece: &[u8], into: &mut [u8], at: usize) -> usize
    requires { at + length piece.now ≤ length into.old }
    ensures { Wrote into.old into.new at result piece.now }
{
    put_at(into, at, piece);
    at + piece.len()
}

/// Writes an octet in decimal digits at a place, and says where they end.
pub fn put_decimal(n: u8, into: &mut [u8], at: usize) -> usize
    requires { at + 3 ≤ length into.old }
    ensures short { result ≤ at + 3 }
    ensures wrote { Wrote into.old into.new at result (decimal n) }
{
    put(Buffer::new().format(n).as_bytes(), into, at)
}
