//! The collections and locations that sets name.

ghost use Rattle.std.specs.Prelude.{◌≡◌, ◌++◌, ◌∷◌, [], IfOk, IfSome, OnOk, Some};
ghost use Rattle.config_zones.specs.Edited.{hosted_in};
ghost use Rattle.config_zones.specs.Others.{named_by, used_by};
ghost use Rattle.record_set.specs.declared.sets.RecordSet.{RecordSet};
ghost use Rattle.routing.specs.Texts.{IsLocation};
ghost use Rattle.config_zones.specs.Octets.{HasSpelling, IsSpelledRouting};
ghost use Rattle.config_zones.specs.Zones.{placed_in};
ghost use Rattle.zone_model.specs.Slotted.{sets_of};
ghost use Rattle.collection_commands.specs.Named.{named_in};

use cidr_routing::{Ident, locations_are_names};
use config_zones::{Scratch, Zones, hold_at, zones_follow};
use octets::OutOfMemory;
use record_set::Routing;
use std::alloc::Global;

/// The collections and the locations that the sets of all zones name, in their order.
pub fn used_by(
    alloc: Global,
    zones: &Zones,
    scratch: &mut Scratch,
) -> Result<Vec<(u32, Ident)>, OutOfMemory>
    ensures { IfOk result (λ used. used.items ≡ used_by (hosted_in zones.now.zones)) }
{
    zones_follow();
    zones.well_formed();
    let mut used = Vec::new(alloc);
    let mut last = 0;
    while let Some(zone) = zones.zone_after(last) {
        add_all(zones, zone, scratch, &mut used)?;
        last = zone;
    }
    Ok(used)
}

/// Adds what the sets of a zone name.
fn add_all(
    zones: &Zones,
    zone: u32,
    scratch: &mut Scratch,
    used: &mut Vec<(u32, Ident)>,
) -> Result<(), OutOfMemory>
    ensures { OnOk result (used.new.items
        ≡ used.old.items ++ named_in (sets_of (placed_in zones.now.zones zone))) }
{
    for i in 0..zones.count(zone) {
        hold_at(zones, zone, i, scratch);
        add_held(scratch, used)?;
    }
    Ok(())
}

/// Adds what the set that is held names.
fn add_held(scratch: &Scratch, used: &mut Vec<(u32, Ident)>) -> Result<(), OutOfMemory>
    requires { (set : RecordSet) × (scratch.now ≡ Some set) × HasSpelling set }
    ensures { OnOk result
        (IfSome scratch.now (λ set. used.new.items ≡ used.old.items ++ named_in (set ∷ []))) }
{
    let Some(named) = named_by(&scratch.routing()) else {
        return Ok(());
    };
    used.push(named)?;
    Ok(())
}

/// The collection and the location that a policy names.
fn named_by(routing: &Routing) -> Option<(u32, Ident)>
    requires { IsSpelledRouting routing.now }
    ensures { result ≡ named_by routing.now }
{
    match routing {
        Routing::Cidr(_, collection, location) => Some((*collection, name_of(location))),
        Routing::Simple
        | Routing::Weighted(_, _)
        | Routing::Failover(_, _)
        | Routing::Geolocation(_, _)
        | Routing::Latency(_, _)
        | Routing::Multivalue(_) => None,
    }
}

/// The location that a set names, as collections name it.
fn name_of(location: &record_set::Ident) -> Ident
    requires { IsLocation location.now }
    ensures { result ≡ location.now }
{
    locations_are_names();
    match Ident::new(location.bytes()) {
        Some(name) => name,
        None => unreachable!(),
    }
}
