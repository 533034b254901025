//! The end of a zone (API Reference, DeleteHostedZone).

ghost use Rattle.std.specs.Prelude.{◌≡◌, ℕ, IfSome};
ghost use Rattle.std.specs.List.{list_any};
ghost use Rattle.check_model.specs.Checks.{Checks};
ghost use Rattle.config_zones.specs.CommandRecord.TheVariants.{DeleteZone};
ghost use Rattle.config_zones.specs.NewZones.{is_another, is_of_zone};
ghost use Rattle.config_zones.specs.Configured.{TellsEditOnly, config_of};
ghost use Rattle.config_zones.specs.Holding.{IsHolding};
ghost use Rattle.config_zones.specs.Zones.{placed_in};
ghost use Rattle.zone_model.specs.Slotted.{sets_of};

use config_zones::{Refusal, Scratch, ZoneEdit, Zones, edits_are_told, hold_at, zones_are_found};
use dns_name::Name;
use rdata_layout::RType;

/// The edit by which a zone goes, or why it is refused: no zone has the number, or it has a set
/// other than the NS and SOA sets of its apex. What the scratch holds afterwards is left open.
///
/// It looks at sets up to the first of the others, which is one of the first three.
pub fn delete_zone(zones: &Zones, id: u32, scratch: &mut Scratch) -> Result<ZoneEdit, Refusal>
    ensures { (checks : Checks) (next : ℕ)
        → TellsEditOnly (config_of zones.now checks next) (DeleteZone id) zones.now result }
{
    edits_are_told();
    zones.well_formed();
    zones_are_found();
    let Some(apex) = zones.apex(id) else {
        return Err(Refusal::NoSuchHostedZone);
    };
    if has_another(zones, id, &apex, scratch) {
        return Err(Refusal::HostedZoneNotEmpty);
    }
    Ok(ZoneEdit::End(id))
}

/// Whether a zone has a set other than the NS and SOA sets of its apex.
fn has_another(zones: &Zones, zone: u32, apex: &Name, scratch: &mut Scratch) -> bool
    ensures { result ≡ list_any (is_another apex.now) (sets_of (placed_in zones.now.zones zone)) }
{
    for i in 0..zones.count(zone) {
        hold_at(zones, zone, i, scratch);
        if is_another(apex, scratch) {
            return true;
        }
    }
    false
}

/// Whether the set that is held is another than the NS and SOA sets of the apex.
fn is_another(apex: &Name, scratch: &Scratch) -> bool
    requires { IsHolding scratch.now }
    ensures { IfSome scratch.now (λ set. result ≡ is_another apex.now set) }
{
    !(&scratch.name() == apex && is_of_zone(scratch.rtype()))
}

/// Whether sets of the type say how a zone is served.
fn is_of_zone(rtype: RType) -> bool
    ensures { result ≡ is_of_zone rtype }
{
    rtype.number() == RType::Ns.number() || rtype.number() == RType::Soa.number()
}
