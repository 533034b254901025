//! Blocks, and names, in their order: a block of IPv4 first, then by the octets of the address, then
//! by length; a name by its bytes.

ghost use Rattle.std.specs.Prelude.{◌≡◌, Some, refl};
ghost use Rattle.std.specs.Cmp.Lexicographic.{slice_cmp};
ghost use Rattle.std.specs.Ordering.{eq_by_cmp, nat_cmp};
ghost use Rattle.ip_table.specs.Bits.{width_of};
ghost use Rattle.cidr_blocks.specs.Order.{block_cmp_partial, block_cmp_total};
ghost use Rattle.cidr_blocks.specs.Order.{same_block_laws, same_block_partial};
ghost use Rattle.cidr_blocks.specs.Places.{block_cmp, is_block, name_cmp, octets_of};

use crate::ident::Ident;
use ip_table::{IpAddress, IpPrefix};
use std::cmp::Ordering;
use std::marker::Model;

/// A prefix that is ordered as a block.
#[derive(Clone, Copy)]
pub struct Block {
    pub prefix: IpPrefix,
}

impl Model for Block {
    ghost use Rattle.ip_table.specs.Prefixes.{Prefix};

    ghost Value = { Prefix };

    ghost view = { λ b. b.prefix };

    ghost inverse = { λ p. record { prefix = p } };
}

impl PartialEq for Block {
    ghost eq = { eq_by_cmp block_cmp };

    ghost laws = { same_block_partial };

    fn eq(&self, other: &Block) -> bool {
        self.cmp(other).is_eq()
    }
}

impl Eq for Block {
    ghost laws = { same_block_laws };
}

impl PartialOrd for Block {
    ghost partial_cmp = { λ block other. Some (block_cmp block other) };

    ghost laws = { block_cmp_partial };

    fn partial_cmp(&self, other: &Block) -> Option<Ordering> {
        Some(self.cmp(other))
    }
}

impl Ord for Block {
    ghost cmp = { block_cmp };

    ghost total = { block_cmp_total };

    ghost matches_partial_cmp = { λ block other. refl };

    ghost matches_eq = { λ block other. refl };

    fn cmp(&self, other: &Block) -> Ordering {
        order_of(self.prefix, other.prefix)
    }
}

/// The order of two blocks.
pub(crate) fn order_of(prefix: IpPrefix, other: IpPrefix) -> Ordering
    ensures { result ≡ block_cmp prefix other }
{
    let width = width_of(prefix.address());
    let octets = address_order(&prefix.address(), &other.address());
    let length = prefix.length().cmp(&other.length());
    width
        .cmp(&width_of(other.address()))
        .then(octets.then(length))
}

/// The order of two addresses by their octets.
fn address_order(address: &IpAddress, other: &IpAddress) -> Ordering
    ensures { result ≡ slice_cmp nat_cmp (octets_of address.now) (octets_of other.now) }
{
    octets_of(address).cmp(octets_of(other))
}

/// The octets of an address.
fn octets_of(address: &IpAddress) -> &[u8]
    ensures { result.now ≡ octets_of address.now }
{
    match address {
        IpAddress::V4(octets) => octets,
        IpAddress::V6(octets) => octets,
    }
}

/// How many bits an address has.
fn width_of(address: IpAddress) -> u8
    ensures { result ≡ width_of address }
{
    match address {
        IpAddress::V4(_) => 32,
        IpAddress::V6(_) => 128,
    }
}

/// Whether a prefix has the length of a block.
pub fn is_block(prefix: IpPrefix) -> bool
    ensures { result ≡ is_block prefix }
{
    let most = match prefix.address() {
        IpAddress::V4(_) => 24,
        IpAddress::V6(_) => 48,
    };
    1 <= prefix.length() && prefix.length() <= most
}

/// The order of two names, by bytes.
pub fn name_order(name: &Ident, other: &Ident) -> Ordering
    ensures { result ≡ name_cmp name.now other.now }
{
    name.bytes().cmp(other.bytes())
}
