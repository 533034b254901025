//! A set at a place of a zone, held in a scratch and read from it.

ghost use Rattle.std.specs.Prelude.{◌≡◌, ◌≤◌, length, Some, take, IfOk, IfSome};
ghost use Rattle.batch_model.specs.RecordSetRecord.{RecordSet};
ghost use Rattle.batch_model.specs.Octets.{HasSpelling};
ghost use Rattle.zone_table.specs.Bodies.{values_of};
ghost use Rattle.zone_table.specs.Zones.{placed_in};
ghost use Rattle.zone_table.specs.Slotted.{sets_of};
ghost use Rattle.batch_names.specs.Starts.{HoldsAt, HoldsNamed};

use batch_model::{Body, RecordSet, Values};
use dns_name::Name;
use octets::OutOfMemory;
use rdata::{RData, WireFault};
use std::alloc::Global;
use zone_table::{Scratch, Zones};

/// Whether a zone has a set at a place, which is held then.
pub fn hold_at(zones: &Zones, zone: u32, place: usize, scratch: &mut Scratch) -> bool
    ensures { HoldsAt (sets_of (placed_in zones.now.zones zone)) place result scratch.new }
{
    zones.well_formed();
    let Some(set) = zones.at(zone, place) else {
        return false;
    };
    if !zones.load(set, scratch) {
        unreachable!();
    }
    true
}

/// Whether a zone has a set of a name at a place, which is held then. A set of another name is left
/// where it stands.
pub fn hold_named(
    zones: &Zones,
    zone: u32,
    place: usize,
    name: &Name,
    scratch: &mut Scratch,
) -> bool
    ensures { HoldsNamed (sets_of (placed_in zones.now.zones zone)) place name.now result
        scratch.new }
{
    if !zones.has_name(zone, place, name) {
        return false;
    }
    if !hold_at(zones, zone, place, scratch) {
        return false;
    }
    true
}

/// A copy of the set that is held.
pub fn read_held(alloc: Global, scratch: &Scratch) -> Result<RecordSet, OutOfMemory>
    requires { (set : RecordSet) × (scratch.now ≡ Some set) × HasSpelling set }
    ensures { IfOk result (λ set. scratch.now ≡ Some set) }
{
    let body = read_body(alloc, scratch)?;
    Ok(RecordSet {
        name: scratch.name(),
        rtype: scratch.rtype(),
        routing: scratch.routing(),
        body,
        check: scratch.check(),
    })
}

/// What the set answers that is held.
fn read_body(alloc: Global, scratch: &Scratch) -> Result<Body, OutOfMemory>
    requires { (set : RecordSet) × (scratch.now ≡ Some set) × HasSpelling set }
    ensures { IfOk result (λ body. IfSome scratch.now (λ set. body ≡ set.body)) }
{
    match scratch.alias() {
        Some((target, evaluate)) => Ok(Body::Alias { target, evaluate }),
        None => {
            let values = read_values(alloc, scratch)?;
            Ok(Body::Values {
                ttl: scratch.ttl(),
                values: Values::from_vec(values),
            })
        }
    }
}

/// The values of the set that is held.
fn read_values(alloc: Global, scratch: &Scratch) -> Result<Vec<RData>, OutOfMemory>
    requires { (set : RecordSet) × (scratch.now ≡ Some set) × HasSpelling set }
    ensures { IfOk result (λ values. IfSome scratch.now (λ set.
        values.items ≡ values_of set.body)) }
{
    let rtype = scratch.rtype();
    let count = scratch.values();
    let mut values = Vec::with_capacity(alloc, count)?;
    for i in 0..count {
        match RData::from_wire(alloc, rtype, scratch.value(i)) {
            Ok(value) => values.push(value)?,
            Err(WireFault::OutOfMemory) => return Err(OutOfMemory),
            Err(WireFault::Bad) => unreachable!(),
        }
    }
    Ok(values)
}
