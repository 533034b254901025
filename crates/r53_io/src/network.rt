//! A link to the network: two ports of datagrams, one for queries and one for reports.

ghost use Rattle.std.specs.Prelude.{◌≡◌, ℕ, ◌≤◌, List, Option, Some, length};
ghost use Rattle.octets.specs.Counts.{Rose};
ghost use Rattle.r53_io.specs.declared.network.Peer.{Peer};
ghost use Rattle.r53_io.specs.Network.{Incoming, BindGives, octets_given, ReceiveGives, SendLeaves};

use address_text::IpAddress;

/// The room for a datagram's octets: its length, which counts a header too, is at most this (RFC 768).
pub const MAX_DATAGRAM: usize = 65_535;

/// Who sent a query, and to whom its reply goes.
#[derive(Clone, Copy, Debug, PartialEq, Eq)]
pub struct Peer {
    pub address: IpAddress,
    pub port: u16,
}

/// What a bind came to.
#[derive(Clone, Copy, Debug, PartialEq, Eq)]
pub enum Bound {
    /// The ports for queries and for reports.
    Ports(u16, u16),
    Failed,
}

/// What a receive came to.
#[derive(Clone, Copy, Debug, PartialEq, Eq)]
pub enum Arrival {
    /// A datagram of so many octets on the query port.
    Dns(Peer, usize),
    /// A datagram of so many octets on the report port.
    Report(usize),
    /// No datagram came for a while.
    Quiet,
    /// None will come any more.
    Closed,
    /// Nothing was taken.
    Failed,
}

/// What a send came to.
#[derive(Clone, Copy, Debug, PartialEq, Eq)]
pub enum Sent {
    Whole,
    /// Nothing was sent.
    Failed,
}

/// A link to the network.
pub trait Link {
    /// The two ports that a bind to two ports gives, where the link tells them.
    ghost ports: { Self → Option (ℕ → ℕ → ℕ × ℕ) };

    /// What is still to come, where the link tells it.
    ghost coming: { Self → Option (List Incoming) };

    /// The datagrams that were sent, each with its receiver, where the link tells them.
    ghost sent: { Self → Option (List (Peer × List ℕ)) };

    /// How often it has failed.
    ghost faults: { Self → ℕ };

    /// Opens a port for queries and one for reports, and tells their numbers.
    fn bind(&mut self, query_port: u16, report_port: u16) -> Bound
        ensures gives { (given : ℕ → ℕ → ℕ × ℕ) → ports self.old ≡ Some given
            → BindGives (given query_port report_port) result }

        // It takes nothing and sends nothing.
        ensures ports { ports self.new ≡ ports self.old }
        ensures coming { coming self.new ≡ coming self.old }
        ensures sent { sent self.new ≡ sent self.old }

        // It fails only where its count rose.
        ensures counts { faults self.old ≤ faults self.new }
        ensures failed { result ≡ Bound.Failed → Rose (faults self.old) (faults self.new) };

    /// Takes the next datagram of the two ports, and puts its octets to the front of the slice.
    ///
    /// Behind them the slice may hold anything.
    fn receive(&mut self, into: &mut [u8]) -> Arrival
        requires { 65535 ≤ length into.old }
        ensures within { octets_given result ≤ length into.old }
        ensures gives { (next : List Incoming) → coming self.old ≡ Some next
            → ReceiveGives next (coming self.new) result into.old into.new }

        // It sends nothing.
        ensures ports { ports self.new ≡ ports self.old }
        ensures sent { sent self.new ≡ sent self.old }

        // It fails only where its count rose.
        ensures counts { faults self.old ≤ faults self.new }
        ensures failed { result ≡ Arrival.Failed → Rose (faults self.old) (faults self.new) };

    /// Sends a datagram from the query port.
    fn send(&mut self, peer: Peer, bytes: &[u8]) -> Sent
        ensures leaves { (before : List (Peer × List ℕ)) → sent self.old ≡ Some before
            → SendLeaves before (sent self.new) result peer bytes.now }

        // It takes nothing.
        ensures ports { ports self.new ≡ ports self.old }
        ensures coming { coming self.new ≡ coming self.old }

        // It fails only where its count rose.
        ensures counts { faults self.old ≤ faults self.new }
        ensures failed { result ≡ Sent.Failed → Rose (faults self.old) (faults self.new) };
}
