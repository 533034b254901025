//! The bits of an address as a number, and windows of them.

ghost use Rattle.std.specs.Prelude.{◌≡◌, ◌+◌, ◌-◌, ◌^◌, ◌/◌, ◌%◌, ◌<◌, ◌≤◌, ◌↔◌, ℕ, cond};
ghost use Rattle.address_text.specs.declared.address.IpAddress.{IpAddress};
ghost use Rattle.ip_table.specs.Bits.{width_of, number_of, first_bits};
ghost use Rattle.ip_table.specs.Trees.{bit_behind, window};

use address_text::IpAddress;

/// The highest of 128 bits.
const TOP: u128 = 1 << 127;

/// How many bits an address has.
pub(crate) fn width_of(address: IpAddress) -> u8
    ensures { result ≡ width_of address }
{
    match address {
        IpAddress::V4(_) => 32,
        IpAddress::V6(_) => 128,
    }
}

/// The number that the bits of an address spell, filled up with zeros to 128 bits.
pub(crate) fn number_of(address: IpAddress) -> u128
    ensures { result ≡ number_of address }
{
    match address {
        IpAddress::V4(octets) => u128::from(u32::from_be_bytes(octets)) << 96,
        IpAddress::V6(octets) => u128::from_be_bytes(octets),
    }
}

/// How many first bits two addresses have in common, at most 128.
pub(crate) fn shared_bits(a: IpAddress, b: IpAddress) -> u8
    ensures within { result ≤ 128 }
    ensures same { (n : ℕ) → n ≤ 128 → (n ≤ result ↔ (first_bits n a ≡ first_bits n b)) }
{
    common_bits(number_of(a), number_of(b))
}

/// How many first bits two numbers of 128 bits have in common.
fn common_bits(a: u128, b: u128) -> u8
    ensures within { result ≤ 128 }
    ensures same { (n : ℕ) → n ≤ 128 → (n ≤ result ↔ (a / 2 ^ (128 - n) ≡ b / 2 ^ (128 - n))) }
{
    (a ^ b).leading_zeros() as u8
}

/// The bit behind the first ones, of the number that an address's bits spell.
pub(crate) fn bit_of(depth: u8, number: u128) -> u8
    ensures { (a : IpAddress) → number ≡ number_of a → result ≡ bit_behind depth a }
{
    (number >> 127u8.saturating_sub(depth) & 1) as u8
}

/// Whether the bit behind the first ones is set, of the number that an address's bits spell.
///
/// Walks that have to be fast take this form: no branch asks what the bit is, and half the number is
/// moved where that is enough.
#[inline(always)]
pub(crate) fn has_bit(depth: u32, number: u128) -> bool
    ensures { (a : IpAddress) → number ≡ number_of a → cond result 1 0 ≡ bit_behind depth a }
{
    if depth < 64 {
        return has_bit_of_half(depth, first_half(number));
    }
    number & (TOP >> depth.min(127)) != 0
}

/// The first 64 of 128 bits.
#[inline(always)]
pub(crate) fn first_half(number: u128) -> u64
    ensures { result ≡ number / 2 ^ 64 }
{
    (number >> 64) as u64
}

/// Whether the bit behind the first ones is set, of 64 bits.
#[inline(always)]
pub(crate) fn has_bit_of_half(depth: u32, half: u64) -> bool
    requires { depth < 64 }
    ensures { cond result 1 0 ≡ half / 2 ^ (63 - depth) % 2 }
{
    half >> (63 - depth) & 1 == 1
}

/// Whether the bit at a place is set, of 64 bits, the last one at 0 and again at each multiple of 64.
#[inline(always)]
pub(crate) fn has_bit_at(place: u32, half: u64) -> bool
    ensures { cond result 1 0 ≡ half / 2 ^ (place % 64) % 2 }
{
    half >> (place % 64) & 1 == 1
}

/// The 32 bits behind the first ones, of the number that an address's bits spell.
#[inline(always)]
pub(crate) fn window_of(depth: u8, number: u128) -> u32
    requires { depth ≤ 96 }
    ensures { (a : IpAddress) → number ≡ number_of a → result ≡ window depth a }
{
    if depth <= 32 {
        return window_of_half(depth, first_half(number));
    }
    (number >> (96 - depth) & 0xffff_ffff) as u32
}

/// The 32 bits behind the first ones, of 64 bits.
#[inline(always)]
pub(crate) fn window_of_half(depth: u8, half: u64) -> u32
    requires { depth ≤ 32 }
    ensures { result ≡ half / 2 ^ (32 - depth) % 2 ^ 32 }
{
    (half >> (32 - depth) & 0xffff_ffff) as u32
}

/// How many first bits two addresses have in common that differ in the 32 bits behind the first
/// ones.
#[inline(always)]
pub(crate) fn shared_before(depth: u8, a: u32, b: u32) -> u32
    requires { depth ≤ 96 }
    ensures low { result ≤ 128 }
    ensures same { (m : ℕ) → m ≤ 32 → (depth + m ≤ result ↔ (a / 2 ^ (32 - m) ≡ b / 2 ^ (32 - m))) }
{
    u32::from(depth) + (a ^ b).leading_zeros()
}
