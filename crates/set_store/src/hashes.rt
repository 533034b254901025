//! Hashes of names, for tables of hints. No contract speaks of them.

ghost use Rattle.std.specs.Prelude.{◌<◌, ◌+◌, length};

use octets::long_at;

/// The factor of the mixing, which is odd.
const FACTOR: u64 = 0x9e37_79b9_7f4a_7c15;

/// A number that octets are mixed to, eight at a time. The last eight may overlap those before.
pub fn hash_of(octets: &[u8]) -> u64 {
    let size = octets.len();
    if size < 8 {
        return mixed(FACTOR, short_word(octets));
    }
    let mut state = FACTOR;
    for word in 0..size / 8 {
        state = mixed(state, word_at(octets, word * 8));
    }
    mixed(state, word_at(octets, size - 8))
}

/// Eight octets from a place on, as a number.
fn word_at(octets: &[u8], at: usize) -> u64
    requires { at + 7 < length octets.now }
{
    (u64::from(long_at(octets, at)) << 32) | u64::from(long_at(octets, at + 4))
}

/// A few octets, as a number.
fn short_word(octets: &[u8]) -> u64 {
    let mut word = 0;
    for octet in octets {
        word = (word << 8) | u64::from(*octet);
    }
    word
}

/// One more number mixed in.
fn mixed(state: u64, number: u64) -> u64 {
    let product = (state ^ number).wrapping_mul(FACTOR);
    product ^ (product >> 32)
}
