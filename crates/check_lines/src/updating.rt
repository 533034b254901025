//! The line that updates a health check.

ghost use Rattle.serde_json.specs.View.{view};
ghost use Rattle.line_reading.specs.Reading.{Gives};
ghost use Rattle.check_lines.specs.Checks.{update_health_check};

use crate::ids::Ids;
use crate::types::children;
use line_reading::{
    LineFault, Member, check_id, object, optional_flag, optional_owned, optional_u16, required,
};
use serde_json::Value;
use std::alloc::Global;

/// What is to change of a health check; what is absent stays.
#[derive(Drop)]
pub struct CheckUpdate {
    /// The number of the check.
    pub id: u32,
    pub inverted: Option<bool>,
    pub disabled: Option<bool>,
    /// How many of its children have to be healthy, 0 to 256.
    pub threshold: Option<u16>,
    pub children: Option<Ids>,
}

/// The line UpdateHealthCheck.
#[tactic(auto, unfolding(crate::specs::Checks::update_health_check))]
pub fn update_health_check(alloc: Global, value: &Value) -> Result<CheckUpdate, LineFault>
    ensures { Gives result (update_health_check (view value.now)) }
{
    object(
        value,
        Member::UpdateHealthCheck,
        &[
            Member::AlarmIdentifier,
            Member::FailureThreshold,
            Member::HealthCheckVersion,
            Member::InsufficientDataHealthStatus,
            Member::ResetElements,
        ],
        &[
            Member::HealthCheckId,
            Member::Inverted,
            Member::Disabled,
            Member::HealthThreshold,
            Member::ChildHealthChecks,
            Member::IpAddress,
            Member::Port,
            Member::ResourcePath,
            Member::FullyQualifiedDomainName,
            Member::SearchString,
            Member::EnableSni,
            Member::Regions,
        ],
    )?;
    let id = check_id(
        Member::HealthCheckId,
        required(value, Member::HealthCheckId)?,
    )?;
    let inverted = optional_flag(value, Member::Inverted)?;
    let disabled = optional_flag(value, Member::Disabled)?;
    let threshold = optional_u16(value, Member::HealthThreshold, 0, 256)?;
    let children = optional_owned(
        value,
        Member::ChildHealthChecks,
        |m, v| children(alloc, m, v),
    )?;
    Ok(CheckUpdate {
        id,
        inverted,
        disabled,
        threshold,
        children,
    })
}
