//! Places among the octets of a snapshot.

ghost use Rattle.std.specs.Prelude.{◌≡◌, ◌≤◌, ◌-◌, length, drop};

use octets::behind;

/// What stands from a place on, which is nothing behind the last octet.
pub(crate) fn from_place(octets: &[u8], at: usize) -> &[u8]
    ensures { result.now ≡ drop at octets.now }
{
    if octets.len() < at {
        return &[];
    }
    behind(octets, at)
}

/// The place of what is left of the octets.
pub(crate) fn place_of(octets: &[u8], rest: &[u8]) -> usize
    requires { length rest.now ≤ length octets.now }
    ensures { result ≡ length octets.now - length rest.now }
{
    octets.len() - rest.len()
}
