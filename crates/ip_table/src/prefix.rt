//! Prefixes: the addresses of one family that begin with the same bits.

ghost use Rattle.std.specs.Prelude.{◌≡◌, ◌%◌, ◌^◌, ◌≤◌, SomeIff, IsTrue, ◌↔◌};
ghost use Rattle.ip_table.specs.Prefixes.{Prefix, IsPrefix};

use crate::bits::{number_of, width_of};
use address_text::IpAddress;
use std::marker::Model;

/// The addresses of one family that begin with the same bits.
#[derive(Clone, Copy, Debug, PartialEq, Eq)]
pub struct IpPrefix {
    address: IpAddress,
    length: u8,
}

impl Model for IpPrefix {
    ghost use Rattle.ip_table.specs.Prefixes.{Prefix, IsPrefix};

    ghost Value = { Prefix };

    ghost view = { λ p. record { address = p.address; length = p.length } };

    ghost invariant = { λ p. IsPrefix p.address p.length };

    ghost inverse = { λ p. record { address = p.address; length = p.length } };
}

impl IpPrefix {
    /// The prefix of an address with so many bits. None where it has fewer, or a later bit is set.
    pub fn new(address: IpAddress, length: u8) -> Option<IpPrefix>
        ensures { SomeIff result (IsPrefix address length)
            (record { address = address; length = length }) }
    {
        if !is_prefix(address, length) {
            return None;
        }
        Some(IpPrefix { address, length })
    }

    /// Its first address.
    pub fn address(&self) -> IpAddress
        ensures value { result ≡ self.now.address }
        ensures prefix { IsPrefix self.now.address self.now.length }
    {
        self.address
    }

    /// How many bits it has.
    pub fn length(&self) -> u8
        ensures value { result ≡ self.now.length }
        ensures prefix { IsPrefix self.now.address self.now.length }
    {
        self.length
    }
}

/// Whether an address has so many bits, and each later bit is 0.
fn is_prefix(address: IpAddress, length: u8) -> bool
    ensures { IsTrue result ↔ IsPrefix address length }
{
    length <= width_of(address) && ends_in_zeros(number_of(address), 128 - length)
}

/// Whether the last bits of a number are 0.
fn ends_in_zeros(number: u128, count: u8) -> bool
    requires { count ≤ 128 }
    ensures { IsTrue result ↔ (number % 2 ^ count ≡ 0) }
{
    if count == 128 {
        return number == 0;
    }
    number % (1u128 << count) == 0
}
