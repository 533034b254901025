//! The object AliasTarget.

ghost use Rattle.std.specs.Prelude.{◌≡◌};
ghost use Rattle.serde_json.specs.View.{view};
ghost use Rattle.set_lines.specs.Values.{same_zone, alias_target};

use dns_name::Name;
use line_reading::{LineFault, LineReason, Member, flag, name, object, required, without_prefix};
use serde_json::Value;

/// What a set is an alias of.
#[derive(Clone, Copy)]
pub(crate) struct Alias {
    pub(crate) target: Name,
    pub(crate) evaluate: bool,
}

/// The target of an alias in the zone of this text.
#[tactic(auto, unfolding(crate::specs::Values::alias_target))]
pub(crate) fn alias_target(zone: &[u8], member: Member, value: &Value) -> Result<Alias, LineFault>
    ensures { result ≡ alias_target zone.now member (view value.now) }
{
    object(
        value,
        member,
        &[],
        &[
            Member::HostedZoneId,
            Member::DnsName,
            Member::EvaluateTargetHealth,
        ],
    )?;
    same_zone(
        zone,
        Member::HostedZoneId,
        required(value, Member::HostedZoneId)?,
    )?;
    let target = name(Member::DnsName, required(value, Member::DnsName)?)?;
    let evaluate = flag(
        Member::EvaluateTargetHealth,
        required(value, Member::EvaluateTargetHealth)?,
    )?;
    Ok(Alias { target, evaluate })
}

/// That a member has the text of this zone, but for the prefix that each may have.
#[tactic(auto, unfolding(crate::specs::Values::same_zone))]
fn same_zone(zone: &[u8], member: Member, value: &Value) -> Result<(), LineFault>
    ensures { result ≡ same_zone zone.now member (view value.now) }
{
    let Some(text) = value.as_str() else {
        return Err(LineFault::bad(LineReason::WrongKind, member));
    };
    if without_prefix(text.as_bytes()) == without_prefix(zone) {
        Ok(())
    } else {
        Err(LineFault::unsupported(member))
    }
}
