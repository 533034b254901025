//! Keys of packets: hashes of what stands behind their IDs. No contract speaks of them.

ghost use Rattle.std.specs.Prelude.{◌<◌, ◌+◌, length};

use octets::{behind, long_at};

/// The factor of the mixing, which is odd.
const FACTOR: u64 = 0x9e37_79b9_7f4a_7c15;

/// The key of a packet.
pub fn key_of(packet: &[u8]) -> u64 {
    if packet.len() < 10 {
        return 0;
    }
    hash_of(behind(packet, 2))
}

/// A number that octets are mixed to, eight at a time. The last eight may overlap those before.
fn hash_of(octets: &[u8]) -> u64
    requires { 7 < length octets.now }
{
    let size = octets.len();
    let mut state = FACTOR;
    for word in 0..size / 8 {
        state = mixed(state, word_at(octets, word * 8));
    }
    mixed(state, word_at(octets, size - 8))
}

/// Eight octets from a place on, as a number.
fn word_at(octets: &[u8], at: usize) -> u64
    requires { at + 7 < length octets.now }
{
    (u64::from(long_at(octets, at)) << 32) | u64::from(long_at(octets, at + 4))
}

/// One more number mixed in.
fn mixed(state: u64, number: u64) -> u64 {
    let product = (state ^ number).wrapping_mul(FACTOR);
    product ^ (product >> 32)
}
