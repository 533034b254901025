//! The lines that name one check: a report of it, its status, its end.

ghost use Rattle.std.specs.Prelude.{◌≡◌};
ghost use Rattle.serde_json.specs.View.{view};
ghost use Rattle.check_lines.specs.Checks.{check_named, delete_health_check};
ghost use Rattle.check_lines.specs.Checks.{get_health_check_status, observe};

use line_reading::{LineFault, Member, check_id, flag, number_u8, object, required};
use serde_json::Value;

/// What a checker saw of a check.
#[derive(Clone, Copy, Debug, PartialEq, Eq)]
pub struct Observation {
    /// The number of the check.
    pub id: u32,
    /// The number of the checker, 0 to 255.
    pub checker: u8,
    pub pass: bool,
}

/// The line Observe.
#[tactic(auto, unfolding(crate::specs::Checks::observe))]
pub fn observe(value: &Value) -> Result<Observation, LineFault>
    ensures { result ≡ observe (view value.now) }
{
    object(
        value,
        Member::Observe,
        &[],
        &[Member::HealthCheckId, Member::Checker, Member::Pass],
    )?;
    let id = check_id(
        Member::HealthCheckId,
        required(value, Member::HealthCheckId)?,
    )?;
    let checker = number_u8(0, 255, Member::Checker, required(value, Member::Checker)?)?;
    let pass = flag(Member::Pass, required(value, Member::Pass)?)?;
    Ok(Observation { id, checker, pass })
}

/// The line DeleteHealthCheck: the number of the check.
#[tactic(auto, unfolding(crate::specs::Checks::delete_health_check))]
pub fn delete_health_check(value: &Value) -> Result<u32, LineFault>
    ensures { result ≡ delete_health_check (view value.now) }
{
    check_named(Member::DeleteHealthCheck, value)
}

/// The line GetHealthCheckStatus: the number of the check.
#[tactic(auto, unfolding(crate::specs::Checks::get_health_check_status))]
pub fn get_health_check_status(value: &Value) -> Result<u32, LineFault>
    ensures { result ≡ get_health_check_status (view value.now) }
{
    check_named(Member::GetHealthCheckStatus, value)
}

/// The check that a line names alone.
fn check_named(line: Member, value: &Value) -> Result<u32, LineFault>
    ensures { result ≡ check_named line (view value.now) }
{
    object(value, line, &[], &[Member::HealthCheckId])?;
    check_id(
        Member::HealthCheckId,
        required(value, Member::HealthCheckId)?,
    )
}
