//! Reading sets from left to right.

ghost use Rattle.std.specs.Prelude.{◌≡◌, ℕ, length, take, drop, IfOk, Ok};
ghost use Rattle.set_fields.specs.RecordSetRecord.{RecordSet};
ghost use Rattle.set_reading.specs.Sets.{BeginsWithSet};
ghost use Rattle.set_fields.specs.Reading.{Gives, GivesOrStops};
ghost use Rattle.set_reading.specs.Gives.{IsInside, GivesSet, ReadsValue};
ghost use Rattle.set_reading.specs.Reading.{place_at, subdivision_at, weighted_at, failover_at};
ghost use Rattle.set_reading.specs.Reading.{geolocation_at, latency_at, multivalue_at, cidr_at};
ghost use Rattle.set_reading.specs.Reading.{routing_at, value_at, records_at, alias_at, body_at};
ghost use Rattle.set_reading.specs.Reading.{check_at, set_at, read};

use crate::faults::ReadFault;
use set_fields::{
    Body, Fault, Field, MOST_OCTETS, Place, RData, RType, RecordSet, Routing, Stop, Values,
    WireFault, continent_at, country_at, fields_are_read, flag_at, four_at, ident_at, list_at,
    location_at, name_at, octet_at, parts, region_at, role_at, sub_at, ttl_at, two_at, type_at,
};
use std::alloc::Global;

/// The set that bytes begin with, and how many bytes it has.
pub fn read_set(alloc: Global, bytes: &[u8]) -> Result<(RecordSet, usize), ReadFault>
    // What is read stands there.
    ensures found { IfOk result (λ r. BeginsWithSet bytes.now r.0 r.1) }
    // What stands there is read, unless memory runs out.
    ensures only { (set : RecordSet) (n : ℕ) → BeginsWithSet bytes.now set n → GivesSet result (Ok (set, n)) }
    // Which fault it is, and at which place.
    ensures exact { GivesSet result (read bytes.now) }
    ensures inside { IsInside (length bytes.now) result }
{
    fields_are_read();
    read(alloc, bytes)
}

/// The set at the front, or the place of the first fault: its fields one behind another.
#[tactic(auto, unfolding(crate::specs::Reading::read, crate::specs::Reading::set_at))]
fn read(alloc: Global, bytes: &[u8]) -> Result<(RecordSet, usize), ReadFault>
    ensures exact { GivesSet result (read bytes.now) }
    ensures inside { IsInside (length bytes.now) result }
{
    let total = bytes.len();
    let (name, rest) = match name_at(bytes) {
        Ok(read) => read,
        Err(fault) => return Err(ReadFault::Bad(total.saturating_sub(fault.0))),
    };
    let (rtype, rest) = match type_at(rest) {
        Ok(read) => read,
        Err(fault) => return Err(ReadFault::Bad(total.saturating_sub(fault.0))),
    };
    let (routing, rest) = match routing_at(rest) {
        Ok(read) => read,
        Err(fault) => return Err(ReadFault::Bad(total.saturating_sub(fault.0))),
    };
    let (body, rest) = match body_at(alloc, rtype, rest) {
        Ok(read) => read,
        Err(Stop::Bad(left)) => return Err(ReadFault::Bad(total.saturating_sub(left))),
        Err(Stop::OutOfMemory) => return Err(ReadFault::OutOfMemory),
    };
    let (check, rest) = match check_at(rest) {
        Ok(read) => read,
        Err(fault) => return Err(ReadFault::Bad(total.saturating_sub(fault.0))),
    };
    let len = total.saturating_sub(rest.len());
    if len > MOST_OCTETS {
        return Err(ReadFault::Bad(0));
    }
    Ok((
        RecordSet {
            name,
            rtype,
            routing,
            body,
            check,
        },
        len,
    ))
}

/// The policy at the front, and what stands behind it.
#[tactic(auto, unfolding(crate::specs::Reading::routing_at))]
pub fn routing_at(bytes: &[u8]) -> Result<(Routing, &[u8]), Fault>
    ensures { Gives (λ x. (x.0, x.1.now)) result (routing_at bytes.now) }
{
    let (kind, rest) = octet_at(bytes)?;
    match kind {
        0 => Ok((Routing::Simple, rest)),
        1 => weighted_at(rest),
        2 => failover_at(rest),
        3 => geolocation_at(rest),
        4 => latency_at(rest),
        5 => multivalue_at(rest),
        6 => cidr_at(rest),
        _ => Err(Fault(bytes.len())),
    }
}

/// The identifier and the weight of a weighted set.
#[tactic(auto, unfolding(crate::specs::Reading::weighted_at))]
fn weighted_at(bytes: &[u8]) -> Result<(Routing, &[u8]), Fault>
    ensures { Gives (λ x. (x.0, x.1.now)) result (weighted_at bytes.now) }
{
    let (ident, rest) = match ident_at(bytes) {
        Ok(read) => read,
        Err(fault) => return Err(fault),
    };
    let (weight, rest) = octet_at(rest)?;
    Ok((Routing::Weighted(ident, weight), rest))
}

/// The identifier and the role of a failover set.
#[tactic(auto, unfolding(crate::specs::Reading::failover_at))]
fn failover_at(bytes: &[u8]) -> Result<(Routing, &[u8]), Fault>
    ensures { Gives (λ x. (x.0, x.1.now)) result (failover_at bytes.now) }
{
    let (ident, rest) = match ident_at(bytes) {
        Ok(read) => read,
        Err(fault) => return Err(fault),
    };
    let (role, rest) = role_at(rest)?;
    Ok((Routing::Failover(ident, role), rest))
}

/// The identifier and the place of a geolocation set.
#[tactic(auto, unfolding(crate::specs::Reading::geolocation_at))]
fn geolocation_at(bytes: &[u8]) -> Result<(Routing, &[u8]), Fault>
    ensures { Gives (λ x. (x.0, x.1.now)) result (geolocation_at bytes.now) }
{
    let (ident, rest) = match ident_at(bytes) {
        Ok(read) => read,
        Err(fault) => return Err(fault),
    };
    let (place, rest) = match place_at(rest) {
        Ok(read) => read,
        Err(fault) => return Err(fault),
    };
    Ok((Routing::Geolocation(ident, place), rest))
}

/// The identifier and the region of a latency set.
#[tactic(auto, unfolding(crate::specs::Reading::latency_at))]
fn latency_at(bytes: &[u8]) -> Result<(Routing, &[u8]), Fault>
    ensures { Gives (λ x. (x.0, x.1.now)) result (latency_at bytes.now) }
{
    let (ident, rest) = match ident_at(bytes) {
        Ok(read) => read,
        Err(fault) => return Err(fault),
    };
    let (region, rest) = match region_at(rest) {
        Ok(read) => read,
        Err(fault) => return Err(fault),
    };
    Ok((Routing::Latency(ident, region), rest))
}

/// The identifier of a multivalue set.
#[tactic(auto, unfolding(crate::specs::Reading::multivalue_at))]
fn multivalue_at(bytes: &[u8]) -> Result<(Routing, &[u8]), Fault>
    ensures { Gives (λ x. (x.0, x.1.now)) result (multivalue_at bytes.now) }
{
    let (ident, rest) = match ident_at(bytes) {
        Ok(read) => read,
        Err(fault) => return Err(fault),
    };
    Ok((Routing::Multivalue(ident), rest))
}

/// The identifier, the collection and the location of an IP-based set.
#[tactic(auto, unfolding(crate::specs::Reading::cidr_at))]
fn cidr_at(bytes: &[u8]) -> Result<(Routing, &[u8]), Fault>
    ensures { Gives (λ x. (x.0, x.1.now)) result (cidr_at bytes.now) }
{
    let (ident, rest) = match ident_at(bytes) {
        Ok(read) => read,
        Err(fault) => return Err(fault),
    };
    let (collection, rest) = four_at(rest)?;
    let (location, rest) = match location_at(rest) {
        Ok(read) => read,
        Err(fault) => return Err(fault),
    };
    Ok((Routing::Cidr(ident, collection, location), rest))
}

/// A place.
#[tactic(auto, unfolding(crate::specs::Reading::place_at))]
fn place_at(bytes: &[u8]) -> Result<(Place, &[u8]), Fault>
    ensures { Gives (λ x. (x.0, x.1.now)) result (place_at bytes.now) }
{
    let (kind, rest) = octet_at(bytes)?;
    match kind {
        1 => {
            let (continent, rest) = continent_at(rest)?;
            Ok((Place::Continent(continent), rest))
        }
        2 => {
            let (country, rest) = country_at(rest)?;
            Ok((Place::Country(country), rest))
        }
        3 => subdivision_at(rest),
        4 => Ok((Place::Anywhere, rest)),
        _ => Err(Fault(bytes.len())),
    }
}

/// A country and its subdivision.
#[tactic(auto, unfolding(crate::specs::Reading::subdivision_at))]
fn subdivision_at(bytes: &[u8]) -> Result<(Place, &[u8]), Fault>
    ensures { Gives (λ x. (x.0, x.1.now)) result (subdivision_at bytes.now) }
{
    let (country, rest) = country_at(bytes)?;
    let (sub, rest) = match sub_at(rest) {
        Ok(read) => read,
        Err(fault) => return Err(fault),
    };
    Ok((Place::Subdivision(country, sub), rest))
}

/// What a set of the type answers.
#[tactic(auto, unfolding(crate::specs::Reading::body_at))]
fn body_at(alloc: Global, rtype: RType, bytes: &[u8]) -> Result<(Body, &[u8]), Stop>
    ensures { GivesOrStops (λ x. (x.0, x.1.now)) result (body_at rtype bytes.now) }
{
    let (kind, rest) = octet_at(bytes)?;
    match kind {
        0 => records_at(alloc, rtype, rest),
        1 => match alias_at(rest) {
            Ok(read) => Ok(read),
            Err(fault) => Err(Stop::Bad(fault.0)),
        },
        _ => Err(Stop::Bad(bytes.len())),
    }
}

/// The time to live and the values of records.
#[tactic(auto, unfolding(crate::specs::Reading::records_at))]
fn records_at(alloc: Global, rtype: RType, bytes: &[u8]) -> Result<(Body, &[u8]), Stop>
    ensures { GivesOrStops (λ x. (x.0, x.1.now)) result (records_at rtype bytes.now) }
{
    let (ttl, rest) = ttl_at(bytes)?;
    let (list, rest) = list_at(alloc, &ValuesOf(rtype), rest)?;
    let values = Values::from_vec(list);
    Ok((Body::Values { ttl, values }, rest))
}

/// The values of a type, each behind the number of its octets, as the items of a list.
#[derive(Clone, Copy)]
struct ValuesOf(RType);

impl Field for ValuesOf {
    type Value = RData;

    ghost use Rattle.set_reading.specs.Reading.{value_at};

    ghost reading = { λ a. value_at a.0 };

    fn read<'a>(&self, alloc: Global, bytes: &'a [u8]) -> Result<(RData, &'a [u8]), Stop> {
        value_at(alloc, self.0, bytes)
    }
}

/// A value behind the number of its octets.
#[tactic(auto, unfolding(crate::specs::Reading::value_at))]
fn value_at(alloc: Global, rtype: RType, bytes: &[u8]) -> Result<(RData, &[u8]), Stop>
    ensures { GivesOrStops (λ x. (x.0, x.1.now)) result (value_at rtype bytes.now) }
{
    let (len, rest) = two_at(bytes)?;
    let len = len as usize;
    if rest.len() < len {
        return Err(Stop::Bad(0));
    }
    let (wire, later) = parts(rest, len);
    match value_of(alloc, rtype, wire) {
        Ok(value) => Ok((value, later)),
        Err(WireFault::Bad) => Err(Stop::Bad(rest.len())),
        Err(WireFault::OutOfMemory) => Err(Stop::OutOfMemory),
    }
}

/// The value of these octets.
fn value_of(alloc: Global, rtype: RType, wire: &[u8]) -> Result<RData, WireFault>
    ensures { ReadsValue rtype wire.now result }
{
    RData::from_wire(alloc, rtype, wire)
}

/// The target of an alias, and whether its health counts.
#[tactic(auto, unfolding(crate::specs::Reading::alias_at))]
fn alias_at(bytes: &[u8]) -> Result<(Body, &[u8]), Fault>
    ensures { Gives (λ x. (x.0, x.1.now)) result (alias_at bytes.now) }
{
    let (target, rest) = match name_at(bytes) {
        Ok(read) => read,
        Err(fault) => return Err(fault),
    };
    let (evaluate, rest) = flag_at(rest)?;
    Ok((Body::Alias { target, evaluate }, rest))
}

/// The number of a check at the front, where there is one, and what stands behind it.
#[tactic(auto, unfolding(crate::specs::Reading::check_at))]
pub fn check_at(bytes: &[u8]) -> Result<(Option<u32>, &[u8]), Fault>
    ensures { Gives (λ x. (x.0, x.1.now)) result (check_at bytes.now) }
{
    let (flag, rest) = flag_at(bytes)?;
    if !flag {
        return Ok((None, rest));
    }
    let (check, rest) = four_at(rest)?;
    Ok((Some(check), rest))
}
