//! The object ResourceRecordSet.

ghost use Rattle.std.specs.Prelude.{◌≡◌};
ghost use Rattle.serde_json.specs.View.{view};
ghost use Rattle.line_reading.specs.Reading.{Gives};
ghost use Rattle.set_lines.specs.Sets.{content_members, body_with, resource_record_set};

use crate::aliases::{Alias, alias_target};
use crate::values::{Valued, records};
use batch_model::{Body, RType, RecordSet};
use line_reading::{
    LineFault, LineReason, Member, check_id, name, object, optional, optional_owned, optional_u32,
    required,
};
use policy_lines::{policy_members, record_type, routing_of};
use serde_json::Value;
use std::alloc::Global;

/// What a set has besides its name, type and policy, as far as it is there.
#[derive(Drop)]
pub(crate) struct Contents {
    ttl: Option<u32>,
    records: Option<Valued>,
    alias: Option<Alias>,
    check: Option<u32>,
}

/// A body, and how many bytes the texts of its values had.
#[derive(Drop)]
pub(crate) struct CountedBody {
    body: Body,
    characters: u32,
}

/// A set, and how many bytes the texts of its values had.
#[derive(Drop)]
pub(crate) struct CountedSet {
    pub(crate) set: RecordSet,
    pub(crate) characters: u32,
}

/// A set of the zone of this text.
#[tactic(auto, unfolding(crate::specs::Sets::resource_record_set))]
pub(crate) fn resource_record_set(
    alloc: Global,
    zone: &[u8],
    member: Member,
    value: &Value,
) -> Result<CountedSet, LineFault>
    ensures { Gives result (resource_record_set zone.now member (view value.now)) }
{
    object(
        value,
        member,
        &[
            Member::GeoProximityLocation,
            Member::TrafficPolicyInstanceId,
        ],
        &[
            Member::Name,
            Member::Type,
            Member::SetIdentifier,
            Member::Weight,
            Member::Failover,
            Member::GeoLocation,
            Member::Region,
            Member::MultiValueAnswer,
            Member::CidrRoutingConfig,
            Member::Ttl,
            Member::ResourceRecords,
            Member::AliasTarget,
            Member::HealthCheckId,
        ],
    )?;
    let name = name(Member::Name, required(value, Member::Name)?)?;
    let rtype = record_type(Member::Type, required(value, Member::Type)?)?;
    let policies = policy_members(value)?;
    let contents = content_members(alloc, zone, rtype, value)?;
    let routing = routing_of(&policies)?;
    let check = contents.check;
    let counted = body_of(contents)?;
    Ok(CountedSet {
        set: RecordSet {
            name,
            rtype,
            routing,
            body: counted.body,
            check,
        },
        characters: counted.characters,
    })
}

/// The members behind those of the policy.
#[tactic(auto, unfolding(crate::specs::Sets::content_members))]
fn content_members(
    alloc: Global,
    zone: &[u8],
    rtype: RType,
    value: &Value,
) -> Result<Contents, LineFault>
    ensures { Gives result (content_members zone.now rtype (view value.now)) }
{
    let ttl = optional_u32(value, Member::Ttl, 0, 2_147_483_647)?;
    let records = optional_owned(
        value,
        Member::ResourceRecords,
        |m, v| records(alloc, rtype, m, v),
    )?;
    let alias = optional(value, Member::AliasTarget, |m, v| alias_target(zone, m, v))?;
    let check = optional(value, Member::HealthCheckId, |m, v| check_id(m, v))?;
    Ok(Contents {
        ttl,
        records,
        alias,
        check,
    })
}

/// The body, by the joint rules.
fn body_of(contents: Contents) -> Result<CountedBody, LineFault>
    ensures { result ≡ body_with contents.ttl contents.records contents.alias }
{
    match (contents.ttl, contents.records, contents.alias) {
        (None, None, Some(alias)) => Ok(CountedBody {
            body: Body::Alias {
                target: alias.target,
                evaluate: alias.evaluate,
            },
            characters: 0,
        }),
        (_, _, Some(_)) => Err(LineFault::bad(LineReason::Both, Member::AliasTarget)),
        (None, _, None) => Err(LineFault::bad(LineReason::Missing, Member::Ttl)),
        (Some(_), None, None) => {
            Err(LineFault::bad(LineReason::Missing, Member::ResourceRecords))
        }
        (Some(ttl), Some(valued), None) => Ok(CountedBody {
            body: Body::Values {
                ttl,
                values: valued.values,
            },
            characters: valued.characters,
        }),
    }
}
