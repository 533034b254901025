//! Octets compared eight at a time.

ghost use Rattle.std.specs.Prelude.{◌≡◌, ◌≤◌, ◌+◌, ◌*◌, drop, length, take, IsTrue, ◌↔◌};
ghost use Rattle.octets.specs.Numbers.{long_at};

use crate::heads::is_same;
use octets::{behind, long_at};

/// Whether octets are the same as others, of which there are as many. Where they are few they are
/// told by the first ones and the last ones, which may overlap.
#[inline(always)]
pub(crate) fn is_alike(octets: &[u8], others: &[u8]) -> bool
    requires { length octets.now ≡ length others.now }
    ensures { IsTrue result ↔ (octets.now ≡ others.now) }
{
    let size = others.len();
    if size < 8 {
        return is_same(octets, others);
    }
    if size > 32 {
        return is_same(octets, others);
    }
    if size <= 16 {
        if !are_eight_alike(behind(octets, size - 8), behind(others, size - 8)) {
            return false;
        }
        return are_eight_alike(octets, others);
    }
    if !are_sixteen_alike(behind(octets, size - 16), behind(others, size - 16)) {
        return false;
    }
    are_sixteen_alike(octets, others)
}

/// Whether the first sixteen octets are the same.
#[inline(always)]
fn are_sixteen_alike(octets: &[u8], others: &[u8]) -> bool
    requires own { 16 ≤ length octets.now }
    requires others { 16 ≤ length others.now }
    ensures { IsTrue result ↔ (take 16 octets.now ≡ take 16 others.now) }
{
    if !are_eight_alike(octets, others) {
        return false;
    }
    are_eight_alike(behind(octets, 8), behind(others, 8))
}

/// Whether the first eight octets are the same.
#[inline(always)]
fn are_eight_alike(octets: &[u8], others: &[u8]) -> bool
    requires own { 8 ≤ length octets.now }
    requires others { 8 ≤ length others.now }
    ensures { IsTrue result ↔ (take 8 octets.now ≡ take 8 others.now) }
{
    eight_of(octets) == eight_of(others)
}

/// The first eight octets as a number.
#[inline(always)]
pub(crate) fn eight_of(octets: &[u8]) -> u64
    requires { 8 ≤ length octets.now }
    ensures { result ≡ long_at octets.now 0 * 4294967296 + long_at octets.now 4 }
{
    u64::from(long_at(octets, 0)) * 0x1_0000_0000 + u64::from(long_at(octets, 4))
}
