//! Pieces of slices: what stands before a place and behind it, and copies to a place.

ghost use Rattle.std.specs.Prelude.{◌≡◌, ◌≤◌, ◌+◌, ◌++◌, length, take, drop};

/// Copies a piece to a place of the buffer.
pub fn put_at(buffer: &mut [u8], at: usize, piece: &[u8])
    requires { at + length piece.now ≤ length buffer.old }
    ensures whole { buffer.new
        ≡ take at buffer.old ++ piece.now ++ drop (at + length piece.now) buffer.old }
    ensures written { take (at + length piece.now) buffer.new ≡ take at buffer.old ++ piece.now }
{
    buffer[at..at + piece.len()].copy_from_slice(piece);
}

/// Copies a piece to the front of the buffer.
pub fn fill_front(buffer: &mut [u8], piece: &[u8])
    requires { length piece.now ≤ length buffer.old }
    ensures { buffer.new ≡ piece.now ++ drop (length piece.now) buffer.old }
{
    buffer[..piece.len()].copy_from_slice(piece);
}

/// What stands before a place.
pub fn front(bytes: &[u8], at: usize) -> &[u8]
    requires { at ≤ length bytes.now }
    ensures { result.now ≡ take at bytes.now }
{
    &bytes[..at]
}

/// What stands from a place on.
pub fn behind(bytes: &[u8], at: usize) -> &[u8]
    requires { at ≤ length bytes.now }
    ensures { result.now ≡ drop at bytes.now }
{
    &bytes[at..]
}
