//! An address, the separator behind it and a length.

ghost use Rattle.std.specs.Prelude.{◌≡◌, ◌≤◌, IfSome};
ghost use Rattle.prefix_text.specs.Prefixes.{address_of_text, block_of, plain_number, prefix_of_text};

use crate::marks::place_of;
use ip_table::{IpAddress, IpPrefix, ipv4_of_text, ipv6_of_text, read_ipv4, read_ipv6};
use octets::{behind, front};
use value_text::number;

/// The prefix of a text: an address, `/` and a length, with each bit behind the length 0.
pub fn read_prefix(text: &[u8]) -> Option<IpPrefix>
    ensures { result ≡ prefix_of_text text.now }
{
    let Some(at) = place_of(b'/', text) else {
        return None;
    };
    let Some(address) = read_address(front(text, at)) else {
        return None;
    };
    let Some(length) = read_number(behind(text, at + 1), 128) else {
        return None;
    };
    block_of(address, length as u8)
}

/// The number of decimal digits without leading zeros, where it is at most this.
pub fn read_number(text: &[u8], most: u32) -> Option<u32>
    ensures same { result ≡ plain_number most text.now }
    ensures within { IfSome result (λ n. n ≤ most) }
{
    match text {
        [b'0', _, ..] => None,
        _ => number(text, most),
    }
}

/// The address of a text, of either version.
pub fn read_address(text: &[u8]) -> Option<IpAddress>
    ensures { result ≡ address_of_text text.now }
{
    ipv4_of_text();
    ipv6_of_text();
    if let Some(octets) = read_ipv4(text) {
        return Some(IpAddress::V4(octets));
    }
    let Some(octets) = read_ipv6(text) else {
        return None;
    };
    Some(IpAddress::V6(octets))
}

/// The prefix of an address with so many bits.
fn block_of(address: IpAddress, length: u8) -> Option<IpPrefix>
    ensures { result ≡ block_of address length }
{
    IpPrefix::new(address, length)
}
