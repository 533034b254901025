//! The fields of health checks at the front of octets.

ghost use Rattle.check_octets.specs.Reading.{Gives, GivesOrStops};
ghost use Rattle.check_octets.specs.Readers.{optional_at};
ghost use Rattle.check_reading.specs.Fields.{failures_at, threshold_at, few_at, children_at};
ghost use Rattle.check_reading.specs.Fields.{disabled_at, disabling_at};

use check_model::Children;
use check_octets::{Fault, Field, Stop, flag_at, four_at, list_at, octet_at, so_many, two_at};
use std::alloc::Global;

/// The most of an endpoint's threshold.
const MAX_FAILURES: u8 = 10;

/// The most of a calculated check's threshold.
const MAX_THRESHOLD: u16 = 256;

/// The most children of a new check.
const MAX_CHILDREN: u16 = 255;

/// The first version that tells whether a check is disabled.
const TELLS_DISABLED: u8 = 2;

/// The threshold of an endpoint's check, 1 to 10.
#[tactic(auto, unfolding(crate::specs::Fields::failures_at))]
pub(crate) fn failures_at(bytes: &[u8]) -> Result<(u8, &[u8]), Fault>
    ensures { Gives (λ x. (x.0, x.1.now)) result (failures_at bytes.now) }
{
    let (threshold, rest) = octet_at(bytes)?;
    if threshold < 1 || MAX_FAILURES < threshold {
        return Err(Fault(bytes.len()));
    }
    Ok((threshold, rest))
}

/// The threshold of a calculated check, 0 to 256.
#[tactic(auto, unfolding(crate::specs::Fields::threshold_at))]
pub(crate) fn threshold_at(bytes: &[u8]) -> Result<(u16, &[u8]), Fault>
    ensures { Gives (λ x. (x.0, x.1.now)) result (threshold_at bytes.now) }
{
    let (threshold, rest) = two_at(bytes)?;
    if MAX_THRESHOLD < threshold {
        return Err(Fault(bytes.len()));
    }
    Ok((threshold, rest))
}

/// Whether a check is disabled, where the version tells it.
#[tactic(auto, unfolding(crate::specs::Fields::disabled_at))]
pub(crate) fn disabled_at(version: u8, bytes: &[u8]) -> Result<(bool, &[u8]), Fault>
    ensures { Gives (λ x. (x.0, x.1.now)) result (disabled_at version bytes.now) }
{
    if version < TELLS_DISABLED {
        return Ok((false, bytes));
    }
    flag_at(bytes)
}

/// What a change says of it, where the version tells it.
#[tactic(auto, unfolding(crate::specs::Fields::disabling_at))]
pub(crate) fn disabling_at(
    alloc: Global,
    version: u8,
    bytes: &[u8],
) -> Result<(Option<bool>, &[u8]), Stop>
    ensures { GivesOrStops (λ x. (x.0, x.1.now)) result (disabling_at version bytes.now) }
{
    if version < TELLS_DISABLED {
        return Ok((None, bytes));
    }
    optional_at(alloc, &Flag, bytes)
}

/// How many children a new check has.
#[tactic(auto, unfolding(crate::specs::Fields::few_at))]
fn few_at(bytes: &[u8]) -> Result<(u16, &[u8]), Fault>
    ensures { Gives (λ x. (x.0, x.1.now)) result (few_at bytes.now) }
{
    let (count, rest) = two_at(bytes)?;
    if MAX_CHILDREN < count {
        return Err(Fault(bytes.len()));
    }
    Ok((count, rest))
}

/// The children of a new check.
#[tactic(auto, unfolding(crate::specs::Fields::children_at))]
pub(crate) fn children_at(alloc: Global, bytes: &[u8]) -> Result<(Children, &[u8]), Stop>
    ensures { GivesOrStops (λ x. (x.0, x.1.now)) result (children_at bytes.now) }
{
    let (count, rest) = few_at(bytes)?;
    let (children, rest) = so_many(alloc, &Number, u32::from(count), rest)?;
    Ok((Children::from_vec(children), rest))
}

/// A field behind a flag, where this is 1.
pub(crate) fn optional_at<'a, F: Field>(
    alloc: Global,
    field: &F,
    bytes: &'a [u8],
) -> Result<(Option<F::Value>, &'a [u8]), Stop>
    ensures { GivesOrStops (λ x. (x.0, x.1.now)) result
        (optional_at (F.reading field.now) bytes.now) }
{
    let (is_given, rest) = flag_at(bytes)?;
    if !is_given {
        return Ok((None, rest));
    }
    match field.read(alloc, rest) {
        Ok((value, rest)) => Ok((Some(value), rest)),
        Err(stop) => Err(stop),
    }
}

/// A flag, as a field.
pub(crate) struct Flag;

impl Field for Flag {
    type Value = bool;

    ghost use Rattle.check_octets.specs.Reading.{flag_at};

    ghost reading = { λ _. flag_at };

    fn read<'a>(&self, _alloc: Global, bytes: &'a [u8]) -> Result<(bool, &'a [u8]), Stop> {
        Ok(flag_at(bytes)?)
    }
}

/// The number of a check, as a field.
pub(crate) struct Number;

impl Field for Number {
    type Value = u32;

    ghost use Rattle.check_octets.specs.Reading.{four_at};

    ghost reading = { λ _. four_at };

    fn read<'a>(&self, _alloc: Global, bytes: &'a [u8]) -> Result<(u32, &'a [u8]), Stop> {
        Ok(four_at(bytes)?)
    }
}

/// A calculated check's threshold, as a field.
pub(crate) struct Threshold;

impl Field for Threshold {
    type Value = u16;

    ghost use Rattle.check_reading.specs.Fields.{threshold_at};

    ghost reading = { λ _. threshold_at };

    fn read<'a>(&self, _alloc: Global, bytes: &'a [u8]) -> Result<(u16, &'a [u8]), Stop> {
        Ok(threshold_at(bytes)?)
    }
}

/// A list of children, as a field.
pub(crate) struct AnyChildren;

impl Field for AnyChildren {
    type Value = Children;

    ghost use Rattle.check_octets.specs.Reading.{four_at};
    ghost use Rattle.check_octets.specs.Readers.{list_at};

    ghost reading = { λ _. list_at four_at };

    fn read<'a>(&self, alloc: Global, bytes: &'a [u8]) -> Result<(Children, &'a [u8]), Stop> {
        let (children, rest) = list_at(alloc, &Number, bytes)?;
        Ok((Children::from_vec(children), rest))
    }
}
