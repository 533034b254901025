//! The sets of a new zone (API Reference, CreateHostedZone).

ghost use Rattle.std.specs.Prelude.{◌≡◌, ◌∷◌, [], IfOk, map};
ghost use Rattle.config_model.specs.Layout.{IsLayout};
ghost use Rattle.config_model.specs.NewZones.{new_ns_set, new_soa_set, server_value};
ghost use Rattle.config_model.specs.NewZones.{soa_value};

use config_model::{Body, RData, RType, RecordSet, Routing, Values, WireFault};
use dns_name::Name;
use octets::OutOfMemory;
use std::alloc::Global;

/// What stands behind MNAME in the SOA record of a new zone: RNAME, which is
/// `awsdns-hostmaster.amazon.com.`, SERIAL 1, REFRESH 7200, RETRY 900, EXPIRE 1209600 and MINIMUM
/// 86400 (RFC 1035, 3.3.13).
const BEHIND_SERVER: [u8; 50] = *b"\x11awsdns-hostmaster\x06amazon\x03com\0\
    \0\0\0\x01\0\0\x1C\x20\0\0\x03\x84\0\x12\x75\0\0\x01\x51\x80";

/// The NS and the SOA set of a new zone, in zone order.
pub fn new_sets(
    alloc: Global,
    apex: &Name,
    servers: &[Name; 4],
) -> Result<Vec<RecordSet>, OutOfMemory>
    ensures { IfOk result (λ sets. sets.items
        ≡ new_ns_set apex.now servers.now ∷ new_soa_set apex.now servers.now ∷ []) }
{
    let mut sets = Vec::with_capacity(alloc, 2)?;
    sets.push(ns_set(alloc, apex, servers)?)?;
    sets.push(soa_set(alloc, apex, &servers[0])?)?;
    Ok(sets)
}

/// The name servers of its apex.
fn ns_set(alloc: Global, apex: &Name, servers: &[Name]) -> Result<RecordSet, OutOfMemory>
    ensures { IfOk result (λ set. set ≡ new_ns_set apex.now servers.now) }
{
    let values = server_values(alloc, servers)?;
    Ok(RecordSet {
        name: *apex,
        rtype: RType::Ns,
        routing: Routing::Simple,
        body: Body::Values {
            ttl: 172_800,
            values: Values::from_vec(values),
        },
        check: None,
    })
}

/// A value for each server.
fn server_values(alloc: Global, servers: &[Name]) -> Result<Vec<RData>, OutOfMemory>
    ensures { IfOk result (λ values. values.items ≡ map server_value servers.now) }
{
    let mut values = Vec::with_capacity(alloc, servers.len())?;
    for i in 0..servers.len() {
        values.push(ns_value(alloc, &servers[i])?)?;
    }
    Ok(values)
}

/// The value of an NS record.
fn ns_value(alloc: Global, server: &Name) -> Result<RData, OutOfMemory>
    ensures { IfOk result (λ value. value ≡ server_value server.now) }
{
    value_of(alloc, RType::Ns, server.octets())
}

/// The start of its authority.
fn soa_set(alloc: Global, apex: &Name, server: &Name) -> Result<RecordSet, OutOfMemory>
    ensures { IfOk result (λ set. set ≡ new_soa_set apex.now (server.now ∷ [])) }
{
    let mut values = Vec::with_capacity(alloc, 1)?;
    values.push(soa_value(alloc, server)?)?;
    Ok(RecordSet {
        name: *apex,
        rtype: RType::Soa,
        routing: Routing::Simple,
        body: Body::Values {
            ttl: 900,
            values: Values::from_vec(values),
        },
        check: None,
    })
}

/// The value of the SOA record.
fn soa_value(alloc: Global, server: &Name) -> Result<RData, OutOfMemory>
    ensures { IfOk result (λ value. value ≡ soa_value server.now) }
{
    let mut octets = Vec::with_capacity(alloc, 305)?;
    octets.extend_from_slice(server.octets())?;
    octets.extend_from_slice(&BEHIND_SERVER)?;
    value_of(alloc, RType::Soa, octets.as_slice())
}

/// The value of octets that are in the layout of its type.
fn value_of(alloc: Global, rtype: RType, octets: &[u8]) -> Result<RData, OutOfMemory>
    requires { IsLayout rtype octets.now }
    ensures { IfOk result (λ value. value ≡ record { rtype = rtype; wire = octets.now }) }
{
    match RData::from_wire(alloc, rtype, octets) {
        Ok(value) => Ok(value),
        Err(WireFault::OutOfMemory) => Err(OutOfMemory),
        Err(WireFault::Bad) => unreachable!(),
    }
}
