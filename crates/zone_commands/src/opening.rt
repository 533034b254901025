//! A new zone (API Reference, CreateHostedZone).

ghost use Rattle.std.specs.Prelude.{◌≡◌, ◌≤◌, ◌+◌, ◌==◌, ◌∷◌, [], ℕ, drop, length, not};
ghost use Rattle.std.specs.List.{AllByRecursion, list_any, sum_by};
ghost use Rattle.check_model.specs.Checks.{Checks};
ghost use Rattle.config_zones.specs.CommandRecord.TheVariants.{CreateZone};
ghost use Rattle.config_zones.specs.Edited.{hosted_in};
ghost use Rattle.config_zones.specs.Batches.{is_over};
ghost use Rattle.config_zones.specs.LawsOfConfigModel.{IsBounded};
ghost use Rattle.config_zones.specs.NewZones.{are_most, has_zone, is_repeated, is_zone_name};
ghost use Rattle.config_zones.specs.Sound.{Sound};
ghost use Rattle.config_zones.specs.Telling.{first_of, invalid, refuse_if};
ghost use Rattle.config_zones.specs.InputReasonRecord.TheVariants as reason;
ghost use Rattle.config_zones.specs.RefusalRecord.TheVariants as refusal;
ghost use Rattle.config_zones.specs.Configured.{TellsEdit, config_of};
ghost use Rattle.dns_name.specs.Names.{IsName};
ghost use Rattle.dns_name.specs.Order.{same_labels};
ghost use Rattle.config_zones.specs.Octets.{HasSpelling, set_octets};
ghost use Rattle.config_zones.specs.Counted.{octets_in_all, sets_in_all};

use config_zones::{
    InputReason, Refusal, Sets, ZoneEdit, Zones, counts_agree, edits_are_told, is_over, new_sets,
    octets_in, one_apex, refusals_are_told, zones_are_found,
};
use dns_name::{Name, one_name_of_a_wire};
use octets::OutOfMemory;
use record_set::RecordSet;
use std::alloc::Global;

/// The most zones.
const MAX_ZONES: usize = 500;

/// The last number, which no zone gets.
const LAST: u32 = 4_294_967_295;

/// The edit by which a zone of this name comes, with the sets of a new zone and the next number; or
/// why it is refused.
///
/// It is refused by its name, then by two servers that are one, by a zone of the name, by the bound
/// of 500 zones, by the last number, and by the bounds of sets and octets of all zones.
pub fn create_zone(
    alloc: Global,
    zones: &Zones,
    next: u32,
    name: &Name,
    servers: &[Name; 4],
) -> Result<ZoneEdit, Refusal>
    requires sound { (checks : Checks) × Sound (config_of zones.now checks next) }
    ensures { (checks : Checks) → Sound (config_of zones.now checks next)
        → TellsEdit (config_of zones.now checks next) (CreateZone name.now servers.now) zones.now
        result }
{
    are_names(name, servers);
    counts_agree();
    edits_are_told();
    one_name_of_a_wire();
    refusals_are_told();
    zones_are_found();
    if let Some(why) = named_refusal(zones, next, name, servers) {
        return Err(why);
    }
    let Ok(sets) = new_sets(alloc, name, servers) else {
        return Err(Refusal::OutOfMemory);
    };
    if is_over_with(zones, sets.as_slice()) {
        return Err(Refusal::StoreFull);
    }
    Ok(ZoneEdit::Begin {
        zone: next,
        name: *name,
        sets: Sets::from_vec(sets),
    })
}

/// The name of a zone and those of its servers are names.
fn are_names(name: &Name, servers: &[Name; 4])
    ensures { IsBounded (CreateZone name.now servers.now) }
{
    name.well_formed();
    four_names(servers);
}

/// Servers have names.
fn four_names(servers: &[Name; 4])
    ensures names { AllByRecursion IsName servers.now }
    ensures four { length servers.now ≡ 4 }
{
    for server in servers {
        server.well_formed();
    }
}

/// The first refusal of a new zone, but for the bounds of all zones' sets.
fn named_refusal(zones: &Zones, next: u32, name: &Name, servers: &[Name]) -> Option<Refusal>
    ensures { result ≡ first_of (
        refuse_if (not (is_zone_name name.now)) (invalid reason.BadZoneName)
        ∷ refuse_if (is_repeated servers.now) (invalid reason.RepeatedValue)
        ∷ refuse_if (has_zone (hosted_in zones.now.zones) name.now) (invalid reason.ZoneExists)
        ∷ refuse_if (are_most (length (hosted_in zones.now.zones))) refusal.TooManyHostedZones
        ∷ refuse_if (next == 4294967295) refusal.IdsEnded
        ∷ []) }
{
    counts_agree();
    if !is_zone_name(name) {
        return Some(invalid(InputReason::BadZoneName));
    }
    if is_repeated(servers) {
        return Some(invalid(InputReason::RepeatedValue));
    }
    if has_zone(zones, name) {
        return Some(invalid(InputReason::ZoneExists));
    }
    if zones.len() >= MAX_ZONES {
        return Some(Refusal::TooManyHostedZones);
    }
    if next == LAST {
        return Some(Refusal::IdsEnded);
    }
    None
}

/// What is wrong with the command.
fn invalid(reason: InputReason) -> Refusal
    ensures { result ≡ invalid reason }
{
    Refusal::InvalidInput {
        change: None,
        reason,
    }
}

/// Whether a zone may have the name: it isn't the root, and its first label is not `*`.
fn is_zone_name(name: &Name) -> bool
    ensures { result ≡ is_zone_name name.now }
{
    name.well_formed();
    let Some(parent) = name.parent() else {
        return false;
    };
    let Some(below) = parent.wildcard() else {
        return true;
    };
    !below.is_same(name)
}

/// Whether two of the servers are one.
fn is_repeated(servers: &[Name]) -> bool
    ensures { result ≡ is_repeated servers.now }
{
    for i in 0..servers.len() {
        if has_server(&servers[i], behind(servers, i + 1)) {
            return true;
        }
    }
    false
}

/// What stands from a place on.
fn behind(servers: &[Name], at: usize) -> &[Name]
    requires { at ≤ length servers.now }
    ensures { result.now ≡ drop at servers.now }
{
    &servers[at..]
}

/// Whether a server is one of these.
fn has_server(server: &Name, others: &[Name]) -> bool
    ensures { result ≡ list_any (same_labels server.now) others.now }
{
    for other in others {
        if server == other {
            return true;
        }
    }
    false
}

/// Whether a zone has the name.
fn has_zone(zones: &Zones, name: &Name) -> bool
    ensures { result ≡ has_zone (hosted_in zones.now.zones) name.now }
{
    one_apex();
    zones.well_formed();
    zones_are_found();
    let Some(zone) = zones.zone_for(name) else {
        return false;
    };
    match zones.apex(zone) {
        Some(apex) => apex.is_same(name),
        None => false,
    }
}

/// Whether all zones would have too many sets, or too many octets, with these.
fn is_over_with(zones: &Zones, sets: &[RecordSet]) -> bool
    requires few { length sets.now ≤ 10000 }
    requires spelled { AllByRecursion HasSpelling sets.now }
    requires room { sets_in_all zones.now.zones ≤ 100000 }
    requires octets { octets_in_all zones.now.zones ≤ 67108864 }
    ensures { result ≡ is_over (sets_in_all zones.now.zones + length sets.now)
        (octets_in_all zones.now.zones + sum_by (λ set. length (set_octets set)) sets.now) }
{
    is_over(
        zones.all_sets() + sets.len() as u64,
        zones.all_octets() + octets_in(sets),
    )
}
