//! Commands on health checks at the front of octets, each behind its kind.

ghost use Rattle.check_octets.specs.Reading.{Gives, GivesOrStops};
ghost use Rattle.check_reading.specs.Reading.{endpoint_at, calculated_at, check_at};
ghost use Rattle.check_reading.specs.Reading.{create_at, update_at, delete_at};

use crate::fields::{
    AnyChildren, Flag, Threshold, children_at, disabled_at, disabling_at, failures_at, optional_at,
    threshold_at,
};
use check_model::{Check, CheckCommand};
use check_octets::{Fault, Stop, flag_at, four_at, octet_at};
use std::alloc::Global;

/// A new check.
#[tactic(auto, unfolding(crate::specs::Reading::create_at))]
pub fn create_check_at(
    alloc: Global,
    version: u8,
    bytes: &[u8],
) -> Result<(CheckCommand, &[u8]), Stop>
    ensures { GivesOrStops (λ x. (x.0, x.1.now)) result (create_at version bytes.now) }
{
    match check_at(alloc, version, bytes) {
        Ok((check, rest)) => Ok((CheckCommand::Create(check), rest)),
        Err(stop) => Err(stop),
    }
}

/// A change of a check.
#[tactic(auto, unfolding(crate::specs::Reading::update_at))]
pub fn update_check_at(
    alloc: Global,
    version: u8,
    bytes: &[u8],
) -> Result<(CheckCommand, &[u8]), Stop>
    ensures { GivesOrStops (λ x. (x.0, x.1.now)) result (update_at version bytes.now) }
{
    let (id, rest) = four_at(bytes)?;
    let (inverted, rest) = optional_at(alloc, &Flag, rest)?;
    let (disabled, rest) = disabling_at(alloc, version, rest)?;
    let (threshold, rest) = optional_at(alloc, &Threshold, rest)?;
    let (children, rest) = optional_at(alloc, &AnyChildren, rest)?;
    let command = CheckCommand::Update {
        id,
        inverted,
        disabled,
        threshold,
        children,
    };
    Ok((command, rest))
}

/// The end of a check.
#[tactic(auto, unfolding(crate::specs::Reading::delete_at))]
pub fn delete_check_at(bytes: &[u8]) -> Result<(CheckCommand, &[u8]), Fault>
    ensures { Gives (λ x. (x.0, x.1.now)) result (delete_at bytes.now) }
{
    let (id, rest) = four_at(bytes)?;
    Ok((CheckCommand::Delete(id), rest))
}

/// A check.
#[tactic(auto, unfolding(crate::specs::Reading::check_at))]
fn check_at(alloc: Global, version: u8, bytes: &[u8]) -> Result<(Check, &[u8]), Stop>
    ensures { GivesOrStops (λ x. (x.0, x.1.now)) result (check_at version bytes.now) }
{
    let (kind, rest) = octet_at(bytes)?;
    match kind {
        1 => Ok(endpoint_at(version, rest)?),
        2 => calculated_at(alloc, version, rest),
        _ => Err(Stop::Bad(bytes.len())),
    }
}

/// A check of an endpoint.
#[tactic(auto, unfolding(crate::specs::Reading::endpoint_at))]
fn endpoint_at(version: u8, bytes: &[u8]) -> Result<(Check, &[u8]), Fault>
    ensures { Gives (λ x. (x.0, x.1.now)) result (endpoint_at version bytes.now) }
{
    let (threshold, rest) = failures_at(bytes)?;
    let (inverted, rest) = flag_at(rest)?;
    let (disabled, rest) = disabled_at(version, rest)?;
    let check = Check::Endpoint {
        threshold,
        inverted,
        disabled,
    };
    Ok((check, rest))
}

/// A check of other checks.
#[tactic(auto, unfolding(crate::specs::Reading::calculated_at))]
fn calculated_at(alloc: Global, version: u8, bytes: &[u8]) -> Result<(Check, &[u8]), Stop>
    ensures { GivesOrStops (λ x. (x.0, x.1.now)) result (calculated_at version bytes.now) }
{
    let (threshold, rest) = threshold_at(bytes)?;
    let (inverted, rest) = flag_at(rest)?;
    let (disabled, rest) = disabled_at(version, rest)?;
    let (children, rest) = match children_at(alloc, rest) {
        Ok(read) => read,
        Err(stop) => return Err(stop),
    };
    let check = Check::Calculated {
        threshold,
        inverted,
        disabled,
        children,
    };
    Ok((check, rest))
}
