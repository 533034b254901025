//! An option's data judged field by field, up to the last bit of the address (RFC 7871, 6).

ghost use Rattle.std.specs.Prelude.{◌≡◌, ◌*◌, ◌-◌, ◌<◌, ◌≤◌, ◌++◌, length, replicate, IsTrue, IfOk, ◌↔◌};
ghost use Rattle.ecs_option.specs.Grammar.{Reads, bit_at, bits_of, FitsSource, IsZeroFrom};
ghost use Rattle.ecs_option.specs.Writing.{IsSubnet};

use crate::{ClientSubnet, Malformed};
use octets::{behind, fill_front, number_at};

/// Reads an option's data: family, source length, scope length, address.
pub fn read(body: &[u8]) -> Result<ClientSubnet, Malformed>
    ensures reads { Reads body.now result }
    ensures subnet { IfOk result IsSubnet }
{
    if body.len() < 4 {
        return Err(Malformed(body.len()));
    }
    let family = number_at(body, 0);
    if family > 2 {
        return Err(Malformed(0));
    }
    let source = body[2];
    if source > most_bits(family) {
        return Err(Malformed(2));
    }
    if body[3] != 0 {
        return Err(Malformed(3));
    }
    let used = behind(body, 4);
    if !fits_source(used, source) {
        return Err(Malformed(4));
    }
    Ok(ClientSubnet {
        family,
        source,
        address: filled_up(used),
    })
}

/// How many bits an address of the family has.
fn most_bits(family: u16) -> u8
    requires { family ≤ 2 }
    ensures { result ≡ bits_of family }
{
    match family {
        0 => 0,
        1 => 32,
        _ => 128,
    }
}

/// Whether an address has just the octets that cover the source length, padded with zero bits.
fn fits_source(address: &[u8], source: u8) -> bool
    ensures { IsTrue result ↔ FitsSource source address.now }
{
    let source = usize::from(source);
    address.len() == (source + 7) / 8 && is_zero_from(address, source)
}

/// Whether every bit from a place on is 0.
fn is_zero_from(bytes: &[u8], from: usize) -> bool
    requires { length bytes.now ≤ 32 }
    ensures { IsTrue result ↔ IsZeroFrom from bytes.now }
{
    for place in from..8 * bytes.len() {
        if bit_of(bytes, place) != 0 {
            return false;
        }
    }
    true
}

/// An address filled up with zeros.
fn filled_up(used: &[u8]) -> [u8; 16]
    requires { length used.now ≤ 16 }
    ensures { result ≡ used.now ++ replicate (16 - length used.now) 0 }
{
    let mut address = [0; 16];
    fill_front(&mut address, used);
    address
}

/// The bit at a place, the highest bit of the first octet at place 0.
fn bit_of(bytes: &[u8], place: usize) -> u8
    requires { place < 8 * length bytes.now }
    ensures { result ≡ bit_at bytes.now place }
{
    bytes[place / 8] >> (7 - place % 8) & 1
}
