//! The members of policies, and the rules on them together.

ghost use Rattle.std.specs.Prelude.{◌≡◌, false};
ghost use Rattle.serde_json.specs.View.{view};
ghost use Rattle.policy_lines.specs.Policies.{only_true, policy_members, one_of, routing_of};
ghost use Rattle.policy_lines.specs.Policies.{policy_with, has_policy, policy_of};

use crate::places::{cidr_routing, geo_location};
use line_reading::{LineFault, LineReason, Member, flag, optional, optional_u8, optional_word};
use line_words::{ident_of_text, region_of_text, role_of_text};
use routing::{Ident, Place, Region, Role, Routing};
use serde_json::Value;

/// The members of a set that say its policy, as far as they are there.
#[derive(Clone, Copy)]
pub struct Policies {
    pub ident: Option<Ident>,
    pub weight: Option<u8>,
    pub role: Option<Role>,
    pub place: Option<Place>,
    pub region: Option<Region>,
    /// Whether it is one of several answers (multivalue answer).
    pub several: bool,
    /// The number of a collection of address blocks, and one of its locations or `*`.
    pub location: Option<(u32, Ident)>,
}

/// Reads these members of a set, in their order.
#[tactic(auto, unfolding(crate::specs::Policies::policy_members))]
pub fn policy_members(value: &Value) -> Result<Policies, LineFault>
    ensures { result ≡ policy_members (view value.now) }
{
    let ident = optional_word(value, Member::SetIdentifier, |text| ident_of_text(text))?;
    let weight = optional_u8(value, Member::Weight, 0, 255)?;
    let role = optional_word(value, Member::Failover, |text| role_of_text(text))?;
    let place = optional(value, Member::GeoLocation, geo_location)?;
    let region = optional_word(value, Member::Region, |text| region_of_text(text))?;
    let several = optional(value, Member::MultiValueAnswer, only_true)?.is_some();
    let location = optional(value, Member::CidrRoutingConfig, cidr_routing)?;
    Ok(Policies {
        ident,
        weight,
        role,
        place,
        region,
        several,
        location,
    })
}

/// That a member is true.
#[tactic(auto, unfolding(crate::specs::Policies::only_true))]
fn only_true(member: Member, value: &Value) -> Result<(), LineFault>
    ensures { result ≡ only_true member (view value.now) }
{
    if flag(member, value)? {
        Ok(())
    } else {
        Err(LineFault::bad(LineReason::OutOfRange, member))
    }
}

/// The policy of a set by its members, by the joint rules.
#[tactic(auto, unfolding(crate::specs::Policies::routing_of))]
pub fn routing_of(policies: &Policies) -> Result<Routing, LineFault>
    ensures { result ≡ routing_of policies.now }
{
    one_of(&[
        (Member::Weight, policies.weight.is_some()),
        (Member::Failover, policies.role.is_some()),
        (Member::GeoLocation, policies.place.is_some()),
        (Member::Region, policies.region.is_some()),
        (Member::MultiValueAnswer, policies.several),
        (Member::CidrRoutingConfig, policies.location.is_some()),
    ])?;
    policy_of(policies)
}

/// That at most one of these members is there; else the second is told.
fn one_of(members: &[(Member, bool)]) -> Result<(), LineFault>
    ensures { result ≡ one_of false members.now }
{
    let mut one = false;
    for (member, is_there) in members {
        if *is_there {
            if one {
                return Err(LineFault::bad(LineReason::Both, *member));
            }
            one = true;
        }
    }
    Ok(())
}

/// The policy, which stands with an identifier.
fn policy_of(policies: &Policies) -> Result<Routing, LineFault>
    ensures { result ≡ policy_of policies.now.ident policies.now }
{
    let Some(ident) = policies.ident else {
        if has_policy(policies) {
            return Err(LineFault::bad(LineReason::Missing, Member::SetIdentifier));
        }
        return Ok(Routing::Simple);
    };
    match policy_with(ident, policies) {
        Some(routing) => Ok(routing),
        None => Err(LineFault::bad(LineReason::Alone, Member::SetIdentifier)),
    }
}

/// The policy that is there, with an identifier.
fn policy_with(ident: Ident, policies: &Policies) -> Option<Routing>
    ensures { result ≡ policy_with ident policies.now }
{
    if let Some(weight) = policies.weight {
        return Some(Routing::Weighted(ident, weight));
    }
    if let Some(role) = policies.role {
        return Some(Routing::Failover(ident, role));
    }
    if let Some(place) = policies.place {
        return Some(Routing::Geolocation(ident, place));
    }
    if let Some(region) = policies.region {
        return Some(Routing::Latency(ident, region));
    }
    if policies.several {
        return Some(Routing::Multivalue(ident));
    }
    match policies.location {
        Some((collection, location)) => Some(Routing::Cidr(ident, collection, location)),
        None => None,
    }
}

/// Whether a policy is there.
fn has_policy(policies: &Policies) -> bool
    ensures { result ≡ has_policy policies.now }
{
    policies.weight.is_some()
        || policies.role.is_some()
        || policies.place.is_some()
        || policies.region.is_some()
        || policies.several
        || policies.location.is_some()
}
