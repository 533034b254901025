//! Peers and addresses of sockets.

ghost use Rattle.std.specs.Prelude.{◌≡◌, length};
ghost use Rattle.udp_link.specs.Peers.{peer_of, address_of};
ghost use Rattle.std.specs.Net.Addr.{ipv6_octets};

use octets::fill_front;
use r53_io::{IpAddress, Peer};
use std::net::{IpAddr, Ipv4Addr, Ipv6Addr, SocketAddr};

/// The peer at an address.
pub(crate) fn peer_at(from: SocketAddr) -> Peer
    ensures { result ≡ peer_of from }
{
    let address = match from.ip() {
        IpAddr::V4(address) => IpAddress::V4(address.octets()),
        IpAddr::V6(address) => IpAddress::V6(address.octets()),
    };
    Peer {
        address,
        port: from.port(),
    }
}

/// The address that a peer is at.
pub(crate) fn place_of(peer: Peer) -> SocketAddr
    ensures { peer_of result ≡ peer }
{
    SocketAddr::new(ip_of(peer.address), peer.port)
}

fn ip_of(address: IpAddress) -> IpAddr
    ensures { address_of result ≡ address }
{
    match address {
        IpAddress::V4(octets) => IpAddr::V4(Ipv4Addr::from_octets(octets)),
        IpAddress::V6(octets) => IpAddr::V6(ipv6_of(&octets)),
    }
}

/// The address of sixteen octets.
fn ipv6_of(octets: &[u8]) -> Ipv6Addr
    requires { length octets.now ≡ 16 }
    ensures { ipv6_octets result ≡ octets.now }
{
    let mut all = [0; 16];
    fill_front(&mut all, octets);
    Ipv6Addr::from_octets(all)
}
