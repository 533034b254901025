//! The client's address, and how far an answer reaches (RFC 7871, 7.2.1).

ghost use Rattle.std.specs.Prelude.{◌≡◌, IfSome, Some, take};
ghost use Rattle.zone_lookup.specs.Clients.{client_address, client_with};
ghost use Rattle.zone_lookup.specs.Location.{scope_in};
ghost use Rattle.zone_lookup.specs.Reply.{if_used, told_scope};
ghost use Rattle.zone_lookup.specs.Seen.{IsSeen};
ghost use Rattle.dns_message.specs.Whole.{subnet_of};

use address_text::IpAddress;
use dns_message::Edns;
use ecs_option::ClientSubnet;
use geo_latency::{Latencies, Location, Tables};
use zone_lookup::{Seen, Used, Zones, locates_as_told};

/// The client's address: that of the client subnet where its source length is above 0, else the one
/// from which the packet came.
pub fn client_address(edns: &Option<Edns>, peer: IpAddress) -> IpAddress
    ensures { result ≡ client_address (subnet_of edns.now) peer }
{
    let Some(edns) = edns else {
        return peer;
    };
    match edns.subnet {
        None => peer,
        Some(subnet) => subnet_address(&subnet, peer),
    }
}

/// The address of a client subnet, where its source length is above 0.
fn subnet_address(subnet: &ClientSubnet, peer: IpAddress) -> IpAddress
    ensures { result ≡ client_address (Some subnet.now) peer }
{
    if subnet.source == 0 {
        return peer;
    }
    if subnet.family == 1 {
        return IpAddress::V4(first_four(&subnet.address));
    }
    IpAddress::V6(subnet.address)
}

/// The first four octets of an address.
fn first_four(address: &[u8; 16]) -> [u8; 4]
    ensures { result ≡ take 4 address.now }
{
    [address[0], address[1], address[2], address[3]]
}

/// The scope that is told to a query: of the tables and collections that its choices used, where it
/// tells a subnet of a source length above 0.
pub fn told_scope(
    zones: &Zones,
    tables: &Tables,
    edns: &Option<Edns>,
    client: IpAddress,
    used: &Used,
    seen: &Seen,
) -> u8
    requires { IsSeen tables.now client seen.now }
    ensures { result
        ≡ told_scope (subnet_of edns.now)
        (client_with tables.now zones.now.collections.list client) used.now }
{
    let Some(edns) = edns else {
        return 0;
    };
    let Some(subnet) = edns.subnet else {
        return 0;
    };
    if subnet.source == 0 {
        return 0;
    }
    let places = places_scope(tables, client, used.places, seen.places);
    let latencies = latencies_scope(tables, client, used.latencies, seen.latencies);
    places.max(latencies.max(used.blocks))
}

/// The scope of the table of places, where it was used. Where a choice saw it, it isn't looked up.
fn places_scope(tables: &Tables, client: IpAddress, is_used: bool, seen: Option<u8>) -> u8
    requires { IfSome seen (λ scope. scope ≡ scope_in tables.now.places client) }
    ensures { result ≡ if_used is_used (scope_in tables.now.places client) }
{
    if !is_used {
        return 0;
    }
    match seen {
        Some(scope) => scope,
        None => places_found(tables, client),
    }
}

/// The scope of the table of places, looked up.
fn places_found(tables: &Tables, client: IpAddress) -> u8
    ensures { result ≡ scope_in tables.now.places client }
{
    locates_as_told::<Location>();
    tables.places.locate(client).1
}

/// The scope of the table of latencies, where it was used. Where a choice saw it, it isn't looked
/// up.
fn latencies_scope(tables: &Tables, client: IpAddress, is_used: bool, seen: Option<u8>) -> u8
    requires { IfSome seen (λ scope. scope ≡ scope_in tables.now.latencies client) }
    ensures { result ≡ if_used is_used (scope_in tables.now.latencies client) }
{
    if !is_used {
        return 0;
    }
    match seen {
        Some(scope) => scope,
        None => latencies_found(tables, client),
    }
}

/// The scope of the table of latencies, looked up.
fn latencies_found(tables: &Tables, client: IpAddress) -> u8
    ensures { result ≡ scope_in tables.now.latencies client }
{
    locates_as_told::<Latencies>();
    tables.latencies.locate(client).1
}
