//! Sockets of this host as links.

ghost use Rattle.std.specs.Prelude.{◌≤◌, length};

use r53_io::{Arrival, Bound, IpAddress, Link, Peer, Sent};
use std::process::Abort;
use udp_link::UdpLink;

/// A port of this host.
fn here(port: u16) -> Peer {
    Peer {
        address: IpAddress::V4([127, 0, 0, 1]),
        port,
    }
}

/// Ports for queries and for reports, or 0 for both.
fn bound<L: Link>(link: &mut L) -> (u16, u16) {
    match link.bind(0, 0) {
        Bound::Ports(queries, reports) => (queries, reports),
        Bound::Failed => (0, 0),
    }
}

/// Octets are sent to a port.
fn check_send<L: Link>(rt: &impl Abort, link: &mut L, port: u16, octets: &[u8], what: &str) {
    assert_eq!(rt; link.send(here(port), octets), Sent::Whole, "{what}");
}

/// What comes is this, of these octets.
fn check_arrival<L: Link>(
    rt: &impl Abort,
    link: &mut L,
    packet: &mut [u8],
    arrival: Arrival,
    octets: &[u8],
    what: &str,
)
    requires { 65535 ≤ length packet.old }
{
    assert_eq!(rt; link.receive(packet), arrival, "{what}");
    assert!(rt; packet.starts_with(octets), "{what}: its octets");
}

/// A query goes from one to another, a report, and a reply back.
fn exchange<L: Link>(rt: &impl Abort, client: &mut L, server: &mut L) {
    let (queries, reports) = bound(server);
    let (from, _) = bound(client);
    assert!(rt; queries != 0, "a port for queries");
    assert!(rt;
        reports != 0 && reports != queries,
        "another one for reports"
    );
    let mut packet = [0; 65_535];
    let asked = Arrival::Dns(here(from), 3);
    check_send(rt, client, queries, b"abc", "a query is sent");
    check_arrival(rt, server, &mut packet, asked, b"abc", "a query");
    check_send(rt, client, reports, b"de", "a report is sent");
    check_arrival(
        rt,
        server,
        &mut packet,
        Arrival::Report(2),
        b"de",
        "a report",
    );
    let replied = Arrival::Dns(here(queries), 1);
    check_send(rt, server, from, b"f", "a reply is sent");
    check_arrival(rt, client, &mut packet, replied, b"f", "a reply");
    check_arrival(rt, server, &mut packet, Arrival::Quiet, b"", "no more");
}

#[test]
fn sockets_as_a_link(rt: HostRuntime) {
    let mut server = UdpLink::new(rt.alloc(), &rt);
    let mut client = UdpLink::new(rt.alloc(), &rt);
    exchange(&rt, &mut client, &mut server);
    drop(client);
    drop(server);
}
