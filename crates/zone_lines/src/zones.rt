//! The lines that create and delete a hosted zone.

ghost use Rattle.std.specs.Prelude.{◌≡◌, length};
ghost use Rattle.serde_json.specs.View.{view, items_view};
ghost use Rattle.serde_json.specs.Data.{item, no_items};
ghost use Rattle.line_reading.specs.Reading.{each};
ghost use Rattle.line_reading.specs.Kinds.{name};
ghost use Rattle.zone_lines.specs.Zones.{create_hosted_zone, delete_hosted_zone};
ghost use Rattle.zone_lines.specs.Zones.{hosted_zone_config, not_private, four_names};
ghost use Rattle.zone_lines.specs.Zones.{default_servers};

use dns_name::Name;
use line_reading::{LineFault, Member, flag, list, name, object, optional, required, zone_id};
use serde_json::Value;

/// A hosted zone that is asked for.
#[derive(Clone, Copy)]
pub struct NewZone {
    pub name: Name,
    /// The name servers of its delegation set.
    pub servers: [Name; 4],
}

/// The line CreateHostedZone.
#[tactic(auto, unfolding(crate::specs::Zones::create_hosted_zone))]
pub fn create_hosted_zone(value: &Value) -> Result<NewZone, LineFault>
    ensures { result ≡ create_hosted_zone (view value.now) }
{
    object(
        value,
        Member::CreateHostedZone,
        &[Member::DelegationSetId, Member::Vpc],
        &[
            Member::Name,
            Member::CallerReference,
            Member::NameServers,
            Member::HostedZoneConfig,
        ],
    )?;
    let name = name(Member::Name, required(value, Member::Name)?)?;
    let servers = optional(value, Member::NameServers, four_names)?;
    optional(value, Member::HostedZoneConfig, hosted_zone_config)?;
    let servers = match servers {
        Some(servers) => servers,
        None => default_servers(),
    };
    Ok(NewZone { name, servers })
}

/// The line DeleteHostedZone: the number of the zone.
#[tactic(auto, unfolding(crate::specs::Zones::delete_hosted_zone))]
pub fn delete_hosted_zone(value: &Value) -> Result<u32, LineFault>
    ensures { result ≡ delete_hosted_zone (view value.now) }
{
    object(value, Member::DeleteHostedZone, &[], &[Member::Id])?;
    zone_id(Member::Id, required(value, Member::Id)?)
}

/// A list of four names.
#[tactic(auto, unfolding(crate::specs::Zones::four_names))]
fn four_names(member: Member, value: &Value) -> Result<[Name; 4], LineFault>
    ensures { result ≡ four_names member (view value.now) }
{
    let items = list(4, 4, member, value)?;
    names_of(member, items)
}

/// Four names.
fn names_of(member: Member, items: &[Value]) -> Result<[Name; 4], LineFault>
    requires { length items.now ≡ 4 }
    ensures { result ≡ each (λ _. name member) 0 (items_view items.now) }
{
    let (a, b, c, d) = four(items);
    let a = name(member, a)?;
    let b = name(member, b)?;
    let c = name(member, c)?;
    let d = name(member, d)?;
    Ok([a, b, c, d])
}

/// The items of a list of four.
fn four(items: &[Value]) -> (&Value, &Value, &Value, &Value)
    requires { length items.now ≡ 4 }
    ensures { items_view items.now
        ≡ item (view result.0.now) (item (view result.1.now)
        (item (view result.2.now) (item (view result.3.now) no_items))) }
{
    (&items[0], &items[1], &items[2], &items[3])
}

/// The servers of a zone that are not given.
fn default_servers() -> [Name; 4]
    ensures { result ≡ default_servers }
{
    let Ok(first) = Name::from_text(b"ns1.r53.invalid") else {
        unreachable!()
    };
    let Ok(second) = Name::from_text(b"ns2.r53.invalid") else {
        unreachable!()
    };
    let Ok(third) = Name::from_text(b"ns3.r53.invalid") else {
        unreachable!()
    };
    let Ok(fourth) = Name::from_text(b"ns4.r53.invalid") else {
        unreachable!()
    };
    [first, second, third, fourth]
}

/// The settings of a zone: it may not be private.
#[tactic(auto, unfolding(crate::specs::Zones::hosted_zone_config))]
fn hosted_zone_config(member: Member, value: &Value) -> Result<Option<()>, LineFault>
    ensures { result ≡ hosted_zone_config member (view value.now) }
{
    object(value, member, &[], &[Member::Comment, Member::PrivateZone])?;
    optional(value, Member::PrivateZone, not_private)
}

/// That a zone is not private.
#[tactic(auto, unfolding(crate::specs::Zones::not_private))]
fn not_private(member: Member, value: &Value) -> Result<(), LineFault>
    ensures { result ≡ not_private member (view value.now) }
{
    if flag(member, value)? {
        return Err(LineFault::unsupported(member));
    }
    Ok(())
}
