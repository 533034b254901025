//! Tags of names: five bits by which most names are told apart.

ghost use Rattle.std.specs.Prelude.{◌≡◌, ◌<◌, ◌+◌, ◌^◌, length};
ghost use Rattle.set_store.specs.Tags.{IsTagged, pair_at, tag_of, tag_told};

use octets::long_at;
use set_scratch::name_and_rest;

/// What the octets of a name tell: their first 24, or 16 or 8 where there are no more, are taken as
/// numbers of four octets, whose sum is divided by 31. Names that differ in one octet, as those
/// beside one another in a zone mostly do, tell different numbers but where 31 divides by how much.
pub(crate) fn name_tag(octets: &[u8]) -> u32
    ensures tag { result ≡ tag_of octets.now }
    ensures few { result < 32 }
{
    tag_told(octets)
}

/// The same.
fn tag_told(octets: &[u8]) -> u32
    ensures tag { result ≡ tag_told octets.now }
    ensures few { result < 32 }
{
    let size = octets.len();
    if size < 8 {
        return 0;
    }
    let first = pair_at(octets, 0);
    if size < 16 {
        return (first % 31) as u32;
    }
    let second = pair_at(octets, 8);
    if size < 24 {
        return ((first + second) % 31) as u32;
    }
    let third = pair_at(octets, 16);
    ((first + second + third) % 31) as u32
}

/// The sum of two numbers of four octets each, from a place on.
fn pair_at(octets: &[u8], at: usize) -> u64
    requires { at + 7 < length octets.now }
    ensures pair { result ≡ pair_at octets.now at }
    ensures few { result < 2 ^ 33 }
{
    u64::from(long_at(octets, at)) + u64::from(long_at(octets, at + 4))
}

/// The tag of the name with which the octets of a set begin.
pub(crate) fn tag_in(octets: &[u8]) -> u32
    ensures tag { IsTagged result octets.now }
    ensures few { result < 32 }
{
    name_tag(name_and_rest(octets).0)
}
