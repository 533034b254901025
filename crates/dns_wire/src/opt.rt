//! The OPT record of a reply (RFC 6891, 6.1), with the client subnet that the query told (RFC 7871, 7.2.1).
//!
//! It is written where it stays. Of a subnet all octets of the address are copied, and those count that
//! cover the source length: what stands behind the record is no part of the reply.

ghost use Rattle.std.specs.Prelude.{◌≡◌, ℕ, ◌+◌, ◌≤◌, ◌<◌, ◌∷◌, [], ◌++◌, length, take, Some};
ghost use Rattle.std.specs.List.{flat_map};
ghost use Rattle.octets.specs.Numbers.{two_octets};
ghost use Rattle.dns_message.specs.Grammar.{octets_for};
ghost use Rattle.dns_message.specs.Whole.{IsSubnetOrNone, subnet_of};
ghost use Rattle.dns_message.specs.Writing.{IsSubnet};
ghost use Rattle.dns_wire.specs.Draft.{opt_of, options_of};
ghost use Rattle.dns_wire.specs.Header.{FitsRcode};
ghost use Rattle.dns_wire.specs.Message.{fixed_opt_octets, opt_octets, option_octets};

use dns_message::{ClientSubnet, Edns};
use octets::{put_at, two_octets};

/// The octets of the record before its options.
const FIXED_LEN: usize = 11;

/// The octets of a client subnet before its address: its code, how many follow, family, source and scope.
const HEAD_LEN: usize = 8;

/// How many octets the record has, where the query had one.
#[inline(always)]
pub(crate) fn opt_len(edns: &Option<Edns>) -> usize
    requires subnet { IsSubnetOrNone (subnet_of edns.now) }
    ensures len { (rcode scope : ℕ) → result ≡ length (opt_octets rcode (opt_of edns.now scope)) }
    ensures most { result ≤ 35 }
{
    match edns {
        Some(edns) => FIXED_LEN + options_len(&edns.subnet),
        None => 0,
    }
}

/// How many octets the options have.
#[inline(always)]
fn options_len(subnet: &Option<ClientSubnet>) -> usize
    requires { IsSubnetOrNone subnet.now }
    ensures len { (scope : ℕ) → result ≡ length (flat_map option_octets (options_of subnet.now scope)) }
    ensures most { result ≤ 24 }
{
    match subnet {
        Some(subnet) => HEAD_LEN + used_len(subnet.source),
        None => 0,
    }
}

/// How many octets cover so many bits.
fn used_len(bits: u8) -> usize
    ensures { result ≡ octets_for bits }
{
    (usize::from(bits) + 7) / 8
}

/// Writes the record to a place of the buffer, where the query had one, and says where it ends.
#[inline(always)]
pub(crate) fn add_opt(
    buffer: &mut [u8],
    at: usize,
    edns: &Option<Edns>,
    rcode: u16,
    scope: u8,
) -> usize
    requires subnet { IsSubnetOrNone (subnet_of edns.now) }
    requires rcode { FitsRcode rcode edns.now }
    requires room { at + 35 ≤ length buffer.old }
    ensures end { result ≡ at + length (opt_octets rcode (opt_of edns.now scope)) }
    ensures written { take result buffer.new
        ≡ take at buffer.old ++ opt_octets rcode (opt_of edns.now scope) }
{
    let Some(edns) = edns else {
        return at;
    };
    let len = options_len(&edns.subnet);
    let fixed = fixed_opt_octets(rcode, edns.dnssec_ok, len as u16);
    put_at(buffer, at, &fixed);
    add_options(buffer, at + FIXED_LEN, &edns.subnet, scope)
}

/// The record before its options.
fn fixed_opt_octets(rcode: u16, dnssec_ok: bool, options_len: u16) -> [u8; 11]
    requires { rcode < 4096 }
    ensures { result ≡ fixed_opt_octets rcode 4096 dnssec_ok options_len }
{
    [
        0,
        0,
        41,
        16,
        0,
        (rcode / 16) as u8,
        0,
        128 * u8::from(dnssec_ok),
        0,
        (options_len / 256) as u8,
        (options_len % 256) as u8,
    ]
}

/// Writes the options to a place of the buffer, and says where they end.
#[inline(always)]
fn add_options(buffer: &mut [u8], at: usize, subnet: &Option<ClientSubnet>, scope: u8) -> usize
    requires subnet { IsSubnetOrNone subnet.now }
    requires room { at + 24 ≤ length buffer.old }
    ensures end { result ≡ at + length (flat_map option_octets (options_of subnet.now scope)) }
    ensures written { take result buffer.new
        ≡ take at buffer.old ++ flat_map option_octets (options_of subnet.now scope) }
{
    match subnet {
        Some(subnet) => add_subnet(buffer, at, subnet, scope),
        None => at,
    }
}

/// Writes a client subnet with this scope to a place of the buffer, and says where it ends.
#[inline(always)]
fn add_subnet(buffer: &mut [u8], at: usize, subnet: &ClientSubnet, scope: u8) -> usize
    requires subnet { IsSubnet subnet.now }
    requires room { at + 24 ≤ length buffer.old }
    ensures end { result ≡ at + (8 + octets_for subnet.now.source) }
    ensures written { take result buffer.new ≡ take at buffer.old
        ++ flat_map option_octets (options_of (Some subnet.now) scope) }
{
    let used = used_len(subnet.source);
    let head = head_octets(subnet.family, subnet.source, scope, used as u16);
    put_at(buffer, at, &head);
    add_front(buffer, at + HEAD_LEN, &subnet.address, used)
}

/// Copies a piece to a place of the buffer, of which so many octets count, and says where those end.
#[inline(always)]
fn add_front(buffer: &mut [u8], at: usize, piece: &[u8], used: usize) -> usize
    requires used { used ≤ length piece.now }
    requires room { at + length piece.now ≤ length buffer.old }
    ensures end { result ≡ at + used }
    ensures written { take result buffer.new ≡ take at buffer.old ++ take used piece.now }
{
    put_at(buffer, at, piece);
    at + used
}

/// A client subnet before its address, of which so many octets are told.
fn head_octets(family: u16, source: u8, scope: u8, used: u16) -> [u8; 8]
    requires { used ≤ 16 }
    ensures { result ≡ two_octets 8 ++ (two_octets (4 + used) ++ (two_octets family ++ (source ∷ scope ∷ []))) }
{
    let length = two_octets(4 + used);
    let family = two_octets(family);
    [
        0, 8, length[0], length[1], family[0], family[1], source, scope,
    ]
}
