//! CIDR blocks at the front of octets.

ghost use Rattle.block_octets.specs.Reading.{Gives, GivesOrStops};
ghost use Rattle.block_reading.specs.Blocks.{prefix_at, short_at, long_at, block_at};

use block_octets::{Fault, Field, IpAddress, IpPrefix, Stop, octet_at};
use octets::{behind, front};
use std::alloc::Global;

/// A block.
#[tactic(auto, unfolding(crate::specs::Blocks::block_at))]
pub(crate) fn block_at(bytes: &[u8]) -> Result<(IpPrefix, &[u8]), Fault>
    ensures { Gives (λ x. (x.0, x.1.now)) result (block_at bytes.now) }
{
    let (family, rest) = octet_at(bytes)?;
    match family {
        4 => short_at(rest),
        6 => long_at(rest),
        _ => Err(Fault(bytes.len())),
    }
}

/// A block of IPv4.
#[tactic(auto, unfolding(crate::specs::Blocks::short_at))]
fn short_at(bytes: &[u8]) -> Result<(IpPrefix, &[u8]), Fault>
    ensures { Gives (λ x. (x.0, x.1.now)) result (short_at bytes.now) }
{
    if bytes.len() < 4 {
        return Err(Fault(0));
    }
    let mut octets = [0; 4];
    octets.copy_from_slice(front(bytes, 4));
    prefix_at(IpAddress::V4(octets), behind(bytes, 4))
}

/// A block of IPv6.
#[tactic(auto, unfolding(crate::specs::Blocks::long_at))]
fn long_at(bytes: &[u8]) -> Result<(IpPrefix, &[u8]), Fault>
    ensures { Gives (λ x. (x.0, x.1.now)) result (long_at bytes.now) }
{
    if bytes.len() < 16 {
        return Err(Fault(0));
    }
    let mut octets = [0; 16];
    octets.copy_from_slice(front(bytes, 16));
    prefix_at(IpAddress::V6(octets), behind(bytes, 16))
}

/// The length of a prefix behind its address.
fn prefix_at(address: IpAddress, bytes: &[u8]) -> Result<(IpPrefix, &[u8]), Fault>
    ensures { Gives (λ x. (x.0, x.1.now)) result (prefix_at address bytes.now) }
{
    let (length, rest) = octet_at(bytes)?;
    let Some(prefix) = IpPrefix::new(address, length) else {
        return Err(Fault(bytes.len()));
    };
    Ok((prefix, rest))
}

/// A block, as an item of a list.
pub struct OneBlock;

impl Field for OneBlock {
    type Value = IpPrefix;

    ghost use Rattle.block_reading.specs.Blocks.{block_at};

    ghost reading = { λ _. block_at };

    fn read<'a>(&self, _alloc: Global, bytes: &'a [u8]) -> Result<(IpPrefix, &'a [u8]), Stop> {
        match block_at(bytes) {
            Ok((block, rest)) => Ok((block, rest)),
            Err(Fault(left)) => Err(Stop::Bad(left)),
        }
    }
}
