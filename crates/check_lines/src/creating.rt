//! The line that creates a health check.

ghost use Rattle.std.specs.Prelude.{◌≡◌};
ghost use Rattle.serde_json.specs.View.{view};
ghost use Rattle.line_reading.specs.Reading.{Gives};
ghost use Rattle.check_lines.specs.Checks.{create_health_check, health_check_config, endpoint};
ghost use Rattle.check_lines.specs.Checks.{calculated, check_of};

use crate::ids::Ids;
use crate::types::{Kind, check_type, children};
use line_reading::{
    LineFault, LineReason, Member, object, optional_flag, optional_owned, optional_u8,
    optional_u16, required,
};
use serde_json::Value;
use std::alloc::Global;

/// A health check that is asked for.
#[derive(Drop)]
pub enum NewCheck {
    /// Of an endpoint: after how many equal results a view turns, 1 to 10.
    Endpoint {
        threshold: u8,
        inverted: bool,
        disabled: bool,
    },
    /// Of other checks: how many of them have to be healthy, 0 to 256, and which they are.
    Calculated {
        threshold: u16,
        inverted: bool,
        disabled: bool,
        children: Ids,
    },
}

/// The line CreateHealthCheck.
#[tactic(auto, unfolding(crate::specs::Checks::create_health_check))]
pub fn create_health_check(alloc: Global, value: &Value) -> Result<NewCheck, LineFault>
    ensures { Gives result (create_health_check (view value.now)) }
{
    object(
        value,
        Member::CreateHealthCheck,
        &[],
        &[Member::CallerReference, Member::HealthCheckConfig],
    )?;
    let config = required(value, Member::HealthCheckConfig)?;
    health_check_config(alloc, Member::HealthCheckConfig, config)
}

/// The settings of a check.
#[tactic(auto, unfolding(crate::specs::Checks::health_check_config))]
fn health_check_config(alloc: Global, member: Member, value: &Value) -> Result<NewCheck, LineFault>
    ensures { Gives result (health_check_config member (view value.now)) }
{
    object(
        value,
        member,
        &[
            Member::AlarmIdentifier,
            Member::InsufficientDataHealthStatus,
            Member::RoutingControlArn,
        ],
        &[
            Member::Type,
            Member::FailureThreshold,
            Member::Inverted,
            Member::Disabled,
            Member::HealthThreshold,
            Member::ChildHealthChecks,
            Member::IpAddress,
            Member::Port,
            Member::ResourcePath,
            Member::FullyQualifiedDomainName,
            Member::SearchString,
            Member::RequestInterval,
            Member::MeasureLatency,
            Member::EnableSni,
            Member::Regions,
        ],
    )?;
    let kind = check_type(Member::Type, required(value, Member::Type)?)?;
    let failures = optional_u8(value, Member::FailureThreshold, 1, 10)?;
    let inverted = optional_flag(value, Member::Inverted)?.unwrap_or(false);
    let disabled = optional_flag(value, Member::Disabled)?.unwrap_or(false);
    let healthy = optional_u16(value, Member::HealthThreshold, 0, 256)?;
    let ids = optional_owned(
        value,
        Member::ChildHealthChecks,
        |m, v| children(alloc, m, v),
    )?;
    match kind {
        Kind::Endpoint => endpoint(failures, inverted, disabled, healthy, ids),
        Kind::Calculated => calculated(alloc, failures, inverted, disabled, healthy, ids),
    }
}

/// A check of an endpoint, by the joint rules.
#[tactic(auto, unfolding(crate::specs::Checks::endpoint))]
fn endpoint(
    failures: Option<u8>,
    inverted: bool,
    disabled: bool,
    healthy: Option<u16>,
    ids: Option<Ids>,
) -> Result<NewCheck, LineFault>
    ensures { result ≡ endpoint failures inverted disabled healthy ids }
{
    if healthy.is_some() {
        return Err(LineFault::bad(LineReason::Both, Member::HealthThreshold));
    }
    if ids.is_some() {
        return Err(LineFault::bad(LineReason::Both, Member::ChildHealthChecks));
    }
    Ok(NewCheck::Endpoint {
        threshold: failures.unwrap_or(3),
        inverted,
        disabled,
    })
}

/// A check of other checks, by the joint rules.
#[tactic(auto, unfolding(crate::specs::Checks::calculated))]
fn calculated(
    alloc: Global,
    failures: Option<u8>,
    inverted: bool,
    disabled: bool,
    healthy: Option<u16>,
    ids: Option<Ids>,
) -> Result<NewCheck, LineFault>
    ensures { result ≡ calculated failures inverted disabled healthy ids }
{
    if failures.is_some() {
        return Err(LineFault::bad(LineReason::Both, Member::FailureThreshold));
    }
    let Some(threshold) = healthy else {
        return Err(LineFault::bad(LineReason::Missing, Member::HealthThreshold));
    };
    let children = match ids {
        Some(ids) => ids,
        None => Ids::from_vec(Vec::new(alloc)),
    };
    Ok(NewCheck::Calculated {
        threshold,
        inverted,
        disabled,
        children,
    })
}
