//! The bounds of what checks and commands give.

ghost use Rattle.std.specs.Prelude.{IsTrue, ◌↔◌, ◌≤◌};
ghost use Rattle.check_model.specs.Checks.{IsBounded};
ghost use Rattle.check_model.specs.Commands.{IsBoundedCommand};

use crate::checks::{Check, CheckCommand};

/// The most of an endpoint's threshold.
const MAX_FAILURES: u8 = 10;

/// The most of a calculated check's threshold.
const MAX_THRESHOLD: u16 = 256;

/// The most children.
const MAX_CHILDREN: usize = 255;

/// Whether a check is within its bounds: an endpoint's threshold is 1 to 10, a calculated check's
/// at most 256, and it has at most 255 children.
pub fn is_check_bounded(check: &Check) -> bool
    ensures { IsTrue result ↔ IsBounded check.now }
{
    match check {
        Check::Endpoint { threshold, .. } => is_turning(*threshold),
        Check::Calculated {
            threshold,
            children,
            ..
        } => { *threshold <= MAX_THRESHOLD && children.as_slice().len() <= MAX_CHILDREN }
    }
}

/// Whether a checker's view may turn after so many equal results.
fn is_turning(threshold: u8) -> bool
    ensures { IsTrue result ↔ ((1 ≤ threshold) × (threshold ≤ 10)) }
{
    1 <= threshold && threshold <= MAX_FAILURES
}

/// Whether a command is within its bounds: a check that it makes is, and a threshold that it
/// changes is at most 256.
pub fn is_bounded(command: &CheckCommand) -> bool
    ensures { IsTrue result ↔ IsBoundedCommand command.now }
{
    match command {
        CheckCommand::Create(check) => is_check_bounded(check),
        CheckCommand::Update { threshold, .. } => match threshold {
            Some(threshold) => *threshold <= MAX_THRESHOLD,
            None => true,
        },
        CheckCommand::Delete(_) => true,
    }
}
