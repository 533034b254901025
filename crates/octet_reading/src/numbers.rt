//! Numbers and flags at the front of octets.

ghost use Rattle.std.specs.Prelude.{◌≡◌, ◌<◌, ◌^◌, length, take, drop};
ghost use Rattle.octet_reading.specs.Reading.{Gives, octet_at, two_at, four_at, flag_at};

use crate::stop::Fault;
use octets::{long_at, number_at};

/// The first octet, and what stands behind it.
pub fn octet_at(bytes: &[u8]) -> Result<(u8, &[u8]), Fault>
    ensures { Gives (λ x. (x.0, x.1.now)) result (octet_at bytes.now) }
{
    match bytes {
        [] => Err(Fault(0)),
        [n, rest @ ..] => Ok((*n, rest)),
    }
}

/// A number of two octets, and what stands behind it.
pub fn two_at(bytes: &[u8]) -> Result<(u16, &[u8]), Fault>
    ensures { Gives (λ x. (x.0, x.1.now)) result (two_at bytes.now) }
{
    match bytes {
        [] | [_] => Err(Fault(0)),
        [_, _, rest @ ..] => Ok((number_at(bytes, 0), rest)),
    }
}

/// A number of four octets, and what stands behind it.
pub fn four_at(bytes: &[u8]) -> Result<(u32, &[u8]), Fault>
    ensures { Gives (λ x. (x.0, x.1.now)) result (four_at bytes.now) }
{
    match bytes {
        [] | [_] | [_, _] | [_, _, _] => Err(Fault(0)),
        [_, _, _, _, rest @ ..] => Ok((long_at(bytes, 0), rest)),
    }
}

/// A flag of one octet, 0 or 1, and what stands behind it.
pub fn flag_at(bytes: &[u8]) -> Result<(bool, &[u8]), Fault>
    ensures { Gives (λ x. (x.0, x.1.now)) result (flag_at bytes.now) }
{
    match bytes {
        [] => Err(Fault(0)),
        [0, rest @ ..] => Ok((false, rest)),
        [1, rest @ ..] => Ok((true, rest)),
        [_, ..] => Err(Fault(bytes.len())),
    }
}

/// The first `n` octets, where so many are there, and those behind them.
pub fn parts(bytes: &[u8], n: usize) -> (&[u8], &[u8])
    ensures front { result.0.now ≡ take n bytes.now }
    ensures rest { result.1.now ≡ drop n bytes.now }
{
    if bytes.len() < n {
        return (bytes, &[]);
    }
    bytes.split_at(n)
}
