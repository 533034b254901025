//! Two sockets as a link.

ghost use Rattle.std.specs.Prelude.{◌≡◌, ℕ, ◌≤◌, List, Some, length, IfOk, OnOk, OnErr, true, false};
ghost use Rattle.octets.specs.Counts.{Rose};
ghost use Rattle.r53_io.specs.Network.{Incoming, BindGives, octets_given, ReceiveGives, SendLeaves};
ghost use Rattle.r53_io.specs.declared.network.Peer.{Peer};
ghost use Rattle.udp_link.specs.Link.{LinkState, HasNotFailed, AfterBind, AfterReceive, AfterSend, no_ports, none_coming, none_sent};

use crate::sockets::Sockets;
use r53_io::{Arrival, Bound, Link, Peer, Sent};
use std::alloc::Global;
use std::io::{self, ErrorKind};
use std::marker::Model;
use std::net::Net;

/// A link over two sockets of this host. It tells nothing of their datagrams.
///
/// A bind opens them, and another one opens others.
#[derive(Drop)]
pub struct UdpLink<'a, N: Net> {
    alloc: Global,
    net: &'a N,
    sockets: Option<Sockets>,
    faults: u64,
}

impl<'a, N: Net> Model for UdpLink<'a, N> {
    ghost use Rattle.std.specs.Prelude.{is_some};
    ghost use Rattle.udp_link.specs.Link.{LinkState};

    ghost Value = { LinkState };

    ghost view = { λ a. record {
      is_bound = is_some a.sockets;
      faults = a.faults;
    } };
}

impl<'a, N: Net> UdpLink<'a, N> {
    /// A link that isn't bound, and has not failed yet.
    pub fn new(alloc: Global, net: &'a N) -> Self
        ensures { result ≡ record { is_bound = false; faults = 0 } }
    {
        UdpLink {
            alloc,
            net,
            sockets: None,
            faults: 0,
        }
    }

    fn open(&mut self, query_port: u16, report_port: u16) -> io::Result<(u16, u16)>
        ensures ok { OnOk result (self.new ≡ record self.old { is_bound = true }) }
        ensures err { OnErr result (self.new ≡ self.old) }
    {
        let sockets = Sockets::open(self.alloc, self.net, query_port, report_port)?;
        let ports = sockets.ports()?;
        self.sockets = Some(sockets);
        Ok(ports)
    }

    fn next(&mut self, into: &mut [u8]) -> io::Result<Arrival>
        ensures rests { self.new ≡ self.old }
        ensures bound { OnOk result (self.old.is_bound ≡ true) }
        ensures within { IfOk result (λ a. octets_given a ≤ length into.old) }
        ensures open { IfOk result HasNotFailed }
    {
        match &mut self.sockets {
            Some(sockets) => sockets.next(into),
            None => Err(io::Error::from(ErrorKind::NotConnected)),
        }
    }
}

impl<'a, N: Net> Link for UdpLink<'a, N> {
    ghost use Rattle.udp_link.specs.Link.{no_ports, none_coming, none_sent};

    ghost ports = { no_ports };

    ghost coming = { none_coming };

    ghost sent = { none_sent };

    ghost faults = { λ a. a.faults };

    fn bind(&mut self, query_port: u16, report_port: u16) -> Bound
        ensures gives { (given : ℕ → ℕ → ℕ × ℕ) → no_ports self.old ≡ Some given
            → BindGives (given query_port report_port) result }
        ensures ports { no_ports self.new ≡ no_ports self.old }
        ensures coming { none_coming self.new ≡ none_coming self.old }
        ensures sent { none_sent self.new ≡ none_sent self.old }
        ensures counts { self.old.faults ≤ self.new.faults }
        ensures failed { result ≡ Bound.Failed → Rose self.old.faults self.new.faults }
        ensures after { AfterBind self.old result self.new }
    {
        match self.open(query_port, report_port) {
            Ok((query, report)) => Bound::Ports(query, report),
            Err(_) => {
                self.faults = self.faults.saturating_add(1);
                Bound::Failed
            }
        }
    }

    fn receive(&mut self, into: &mut [u8]) -> Arrival
        ensures within { octets_given result ≤ length into.old }
        ensures gives { (next : List Incoming) → none_coming self.old ≡ Some next
            → ReceiveGives next (none_coming self.new) result into.old into.new }
        ensures ports { no_ports self.new ≡ no_ports self.old }
        ensures sent { none_sent self.new ≡ none_sent self.old }
        ensures counts { self.old.faults ≤ self.new.faults }
        ensures failed { result ≡ Arrival.Failed → Rose self.old.faults self.new.faults }
        ensures after { AfterReceive self.old result self.new }
    {
        match self.next(into) {
            Ok(arrival) => arrival,
            Err(_) => {
                self.faults = self.faults.saturating_add(1);
                Arrival::Failed
            }
        }
    }

    /// A datagram that the system refuses is lost on the way.
    fn send(&mut self, peer: Peer, bytes: &[u8]) -> Sent
        ensures leaves { (before : List (Peer × List ℕ)) → none_sent self.old ≡ Some before
            → SendLeaves before (none_sent self.new) result peer bytes.now }
        ensures ports { no_ports self.new ≡ no_ports self.old }
        ensures coming { none_coming self.new ≡ none_coming self.old }
        ensures counts { self.old.faults ≤ self.new.faults }
        ensures failed { result ≡ Sent.Failed → Rose self.old.faults self.new.faults }
        ensures after { AfterSend self.old result self.new }
    {
        if let Some(sockets) = &self.sockets {
            let _ = sockets.send(peer, bytes);
        }
        Sent::Whole
    }
}
