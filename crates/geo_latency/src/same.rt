//! Equality of short texts that stand in arrays: the arrays are compared, which takes no loop.

ghost use Rattle.std.specs.Prelude.{◌≡◌, ◌-◌, length};
ghost use Rattle.std.proofs.Math.ListN.{get_or};
ghost use Rattle.std.specs.Str.{bytes_eq};

use routing::{Region, Sub};

/// Whether these bytes are the name of a region. Those of most others end otherwise.
#[inline(always)]
pub(crate) fn has_bytes(region: &Region, bytes: &[u8]) -> bool
    ensures { result ≡ bytes_eq region.now bytes.now }
{
    let own = region.bytes();
    if last_byte(own) != last_byte(bytes) {
        return false;
    }
    are_same(own, bytes)
}

/// Whether two texts are one. It stands by itself since few texts come to it: the walk over the
/// others needs few registers then.
#[inline(never)]
fn are_same(text: &[u8], other: &[u8]) -> bool
    ensures { result ≡ bytes_eq text.now other.now }
{
    text == other
}

/// The last byte, or 0 where there is none.
#[inline(always)]
fn last_byte(bytes: &[u8]) -> u8
    ensures { result ≡ get_or bytes.now (length bytes.now - 1) 0 }
{
    if bytes.len() == 0 {
        return 0;
    }
    bytes[bytes.len() - 1]
}

/// Whether two subdivisions have one code.
pub(crate) fn is_same_subdivision(subdivision: &Sub, other: &Sub) -> bool
    ensures { result ≡ bytes_eq subdivision.now other.now }
{
    subdivision == other
}
