//! Checks at the front of octets, each behind its number.

ghost use Rattle.octet_reading.specs.Reading.{GivesOrStops};
ghost use Rattle.check_reading.specs.Reading.{check_at};
ghost use Rattle.snapshot_octets.specs.Reading.{numbered_check_at};
ghost use Rattle.snapshot_reading.specs.Parts.{checks_at};

use check_model::{Check, CheckCommand};
use check_reading::create_check_at;
use octet_reading::{Field, Stop, four_at, list_at};
use std::alloc::Global;

/// The checks of a version, behind their number.
#[tactic(auto, unfolding(crate::specs::Parts::checks_at))]
pub(crate) fn checks_at(
    alloc: Global,
    version: u8,
    bytes: &[u8],
) -> Result<(Vec<(u32, Check)>, &[u8]), Stop>
    ensures { GivesOrStops (λ x. (x.0.items, x.1.now)) result (checks_at version bytes.now) }
{
    list_at(alloc, &HeldCheck(version), bytes)
}

/// A check of a version behind its number, as an item of a list.
#[derive(Clone, Copy)]
struct HeldCheck(u8);

impl Field for HeldCheck {
    type Value = (u32, Check);

    ghost use Rattle.snapshot_octets.specs.Reading.{numbered_check_at};

    ghost reading = { λ a. numbered_check_at a.0 };

    fn read<'a>(&self, alloc: Global, bytes: &'a [u8]) -> Result<((u32, Check), &'a [u8]), Stop> {
        held_check_at(alloc, self.0, bytes)
    }
}

/// A check behind its number.
#[tactic(auto, unfolding(snapshot_octets::specs::Reading::numbered_check_at))]
fn held_check_at(alloc: Global, version: u8, bytes: &[u8]) -> Result<((u32, Check), &[u8]), Stop>
    ensures { GivesOrStops (λ x. (x.0, x.1.now)) result (numbered_check_at version bytes.now) }
{
    let (id, rest) = four_at(bytes)?;
    match check_at(alloc, version, rest) {
        Ok((check, rest)) => Ok(((id, check), rest)),
        Err(stop) => Err(stop),
    }
}

/// A check, which is all that a new one is given.
#[tactic(auto, unfolding(check_reading::specs::Reading::create_at))]
fn check_at(alloc: Global, version: u8, bytes: &[u8]) -> Result<(Check, &[u8]), Stop>
    ensures { GivesOrStops (λ x. (x.0, x.1.now)) result (check_at version bytes.now) }
{
    match create_check_at(alloc, version, bytes) {
        Ok((command, rest)) => {
            let CheckCommand::Create(check) = command else {
                unreachable!();
            };
            Ok((check, rest))
        }
        Err(stop) => Err(stop),
    }
}
