//! Lists of any field that is read from the front of octets.

ghost use Rattle.octet_reading.specs.Reading.{GivesOrStops};
ghost use Rattle.octet_reading.specs.Readers.{Reader, list_at, so_many};

use crate::numbers::two_at;
use crate::stop::Stop;
use std::alloc::Global;

/// A field that is read from the front of octets.
pub trait Field {
    /// What it is read as.
    type Value: Drop;

    /// How it is read.
    ghost reading: { Self → Reader Self.Value };

    /// The field at the front, and what stands behind it.
    fn read<'a>(&self, alloc: Global, bytes: &'a [u8]) -> Result<(Self::Value, &'a [u8]), Stop>
        ensures { GivesOrStops (λ x. (x.0, x.1.now)) result (reading self.now bytes.now) };
}

/// Room for so many values is taken at once; a longer list grows as it is read.
const AT_ONCE: usize = 10_000;

/// So many of a field, and what stands behind them.
///
/// Room is taken at once, for no more values than octets are left, and for 10,000 at most: a value
/// may be too large to be moved each time that a list grows.
pub fn so_many<'a, F: Field>(
    alloc: Global,
    field: &F,
    count: u32,
    bytes: &'a [u8],
) -> Result<(Vec<F::Value>, &'a [u8]), Stop>
    ensures { GivesOrStops (λ x. (x.0.items, x.1.now)) result
        (so_many (F.reading field.now) count bytes.now) }
{
    let room = (count as usize).min(bytes.len()).min(AT_ONCE);
    let Ok(mut values) = Vec::with_capacity(alloc, room) else {
        return Err(Stop::OutOfMemory);
    };
    let mut rest = bytes;
    for _ in 0..count {
        let (value, after) = field.read(alloc, rest)?;
        values.push(value)?;
        rest = after;
    }
    Ok((values, rest))
}

/// A list of a field, behind the number of its items in two octets, and what stands behind it.
pub fn list_at<'a, F: Field>(
    alloc: Global,
    field: &F,
    bytes: &'a [u8],
) -> Result<(Vec<F::Value>, &'a [u8]), Stop>
    ensures { GivesOrStops (λ x. (x.0.items, x.1.now)) result
        (list_at (F.reading field.now) bytes.now) }
{
    let (count, rest) = two_at(bytes)?;
    so_many(alloc, field, u32::from(count), rest)
}
