//! The octets of the texts of addresses.

ghost use Rattle.std.specs.Prelude.{◌≡◌, ℕ, List, IfSome, IfNone};
ghost use Rattle.std.specs.Net.Grammar.{IsDotted};
ghost use Rattle.address_text.specs.Spelling.{SpellsIpv6};

use std::net::{Ipv4Addr, Ipv6Addr};

/// The octets of an IPv4 address in dotted decimal, without leading zeros.
pub fn read_ipv4(text: &[u8]) -> Option<[u8; 4]>
    ensures some { IfSome result (λ octets. IsDotted text.now octets) }
    ensures none { IfNone result ((octets : List ℕ) → IsDotted text.now octets → ⊥) }
{
    let Ok(address) = Ipv4Addr::parse_ascii(text) else {
        return None;
    };
    Some(address.octets())
}

/// The octets of an IPv6 address: eight groups, or fewer with one `::`, of which the last two may
/// be dotted decimal (RFC 4291, 2.2).
pub fn read_ipv6(text: &[u8]) -> Option<[u8; 16]>
    ensures some { IfSome result (λ octets. SpellsIpv6 text.now octets) }
    ensures none { IfNone result ((octets : List ℕ) → SpellsIpv6 text.now octets → ⊥) }
{
    let Ok(address) = Ipv6Addr::parse_ascii(text) else {
        return None;
    };
    Some(address.octets())
}
