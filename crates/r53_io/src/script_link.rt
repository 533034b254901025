//! A link in memory.

ghost use Rattle.std.specs.Prelude.{◌≡◌, ℕ, ◌≤◌, List, [], Some, length, take, drop, map, IfOk, OnOk, OnErr, ◌++◌, ◌∷◌, option_map, slice_get};
ghost use Rattle.std.specs.List.{Contains, All};
ghost use Rattle.octets.specs.Counts.{Rose};
ghost use Rattle.r53_io.specs.Network.{Incoming, BindGives, octets_given, ReceiveGives, SendLeaves};
ghost use Rattle.r53_io.specs.Script.{Script, incoming_of, datagram_of, FitsDatagram, Delivers, AfterBind, AfterReceive, AfterSend};

use crate::{Arrival, Bound, Link, Peer, Sent};
use octets::{OutOfMemory, fill_front};
use std::alloc::Global;
use std::marker::Model;

/// What comes from the network in a script.
#[derive(Drop)]
pub enum Scripted {
    /// A datagram on the query port.
    Dns(Peer, Vec<u8>),
    /// A datagram on the report port.
    Report(Vec<u8>),
    /// A while without a datagram.
    Quiet,
}

/// A link in memory, which plays its script, then is closed, and fails at the calls that it is told.
///
/// It keeps what was sent.
#[derive(Drop)]
pub struct ScriptLink {
    alloc: Global,
    arrivals: Vec<Scripted>,
    at: usize,
    kept: Vec<(Peer, Vec<u8>)>,
    fail: Vec<u64>,
    calls: u64,
    faults: u64,
    starved: u64,
}

impl Model for ScriptLink {
    ghost use Rattle.std.specs.Prelude.{◌≤◌, length, drop, map};
    ghost use Rattle.std.specs.List.{All};
    ghost use Rattle.r53_io.specs.Script.{Script, incoming_of, datagram_of, FitsDatagram};

    ghost Value = { Script };

    ghost view = { λ a. record {
      coming = map incoming_of (drop a.at a.arrivals.items);
      sent = map datagram_of a.kept.items;
      fail = a.fail.items;
      calls = a.calls;
      faults = a.faults;
      starved = a.starved;
    } };

    ghost invariant = { λ a. (a.at ≤ length a.arrivals.items)
        × All FitsDatagram a.arrivals.items };
}

impl ScriptLink {
    /// A link to which these arrivals come. The calls whose numbers, from 0, are in `fail` fail.
    pub fn new(
        alloc: Global,
        arrivals: Vec<Scripted>,
        fail: &[u64],
    ) -> Result<ScriptLink, OutOfMemory>
        requires { All FitsDatagram arrivals.items }
        ensures { IfOk result (λ link. link ≡ record {
          coming = map incoming_of arrivals.items;
          sent = [];
          fail = fail.now;
          calls = 0;
          faults = 0;
          starved = 0;
        }) }
    {
        let fail = fail.to_vec(alloc)?;
        Ok(ScriptLink {
            alloc,
            arrivals,
            at: 0,
            kept: Vec::new(alloc),
            fail,
            calls: 0,
            faults: 0,
            starved: 0,
        })
    }

    /// The datagram of this number, from 0, of those that were sent.
    pub fn sent(&self, i: usize) -> Option<(Peer, &[u8])>
        ensures { option_map (λ d. (d.0, d.1.now)) result ≡ slice_get self.now.sent i }
    {
        let (peer, octets) = self.kept.get(i)?;
        Some((*peer, octets.as_slice()))
    }

    /// How many calls found no memory for what the link keeps.
    pub fn starved(&self) -> u64
        ensures { result ≡ self.now.starved }
    {
        self.starved
    }
}

impl Link for ScriptLink {
    ghost use Rattle.std.specs.Prelude.{Some};

    ghost ports = { λ _. Some (λ query report. (query, report)) };

    ghost coming = { λ s. Some s.coming };

    ghost sent = { λ s. Some s.sent };

    ghost faults = { λ s. s.faults };

    fn bind(&mut self, query_port: u16, report_port: u16) -> Bound
        ensures gives { BindGives (query_port, report_port) result }
        ensures coming { self.new.coming ≡ self.old.coming }
        ensures sent { self.new.sent ≡ self.old.sent }
        ensures counts { self.old.faults ≤ self.new.faults }
        ensures failed { result ≡ Bound.Failed → Rose self.old.faults self.new.faults }

        // It fails exactly at the calls that it was told.
        ensures after { AfterBind self.old query_port report_port result self.new }
    {
        let call = self.calls;
        self.calls = self.calls.saturating_add(1);
        if self.fail.contains(&call) {
            self.faults = self.faults.saturating_add(1);
            return Bound::Failed;
        }
        Bound::Ports(query_port, report_port)
    }

    fn receive(&mut self, into: &mut [u8]) -> Arrival
        requires { 65535 ≤ length into.old }
        ensures within { octets_given result ≤ length into.old }
        ensures gives { ReceiveGives self.old.coming (Some self.new.coming) result
            into.old into.new }
        ensures sent { self.new.sent ≡ self.old.sent }
        ensures counts { self.old.faults ≤ self.new.faults }
        ensures failed { result ≡ Arrival.Failed → Rose self.old.faults self.new.faults }

        // It fails exactly at the calls that it was told.
        ensures after { AfterReceive self.old result self.new }

        // What stands in the slice behind what it gives stays.
        ensures behind { drop (octets_given result) into.new ≡ drop (octets_given result) into.old }
    {
        let call = self.calls;
        self.calls = self.calls.saturating_add(1);
        if self.fail.contains(&call) {
            self.faults = self.faults.saturating_add(1);
            return Arrival::Failed;
        }
        let Some(next) = self.arrivals.get(self.at) else {
            return Arrival::Closed;
        };
        self.at += 1;
        deliver(next, into)
    }

    fn send(&mut self, peer: Peer, bytes: &[u8]) -> Sent
        ensures leaves { SendLeaves self.old.sent (Some self.new.sent) result peer bytes.now }
        ensures coming { self.new.coming ≡ self.old.coming }
        ensures counts { self.old.faults ≤ self.new.faults }
        ensures failed { result ≡ Sent.Failed → Rose self.old.faults self.new.faults }

        // It fails exactly at the calls that it was told, and where it found no memory.
        ensures after { AfterSend self.old peer bytes.now result self.new }
    {
        let call = self.calls;
        self.calls = self.calls.saturating_add(1);
        if self.fail.contains(&call) {
            self.faults = self.faults.saturating_add(1);
            return Sent::Failed;
        }
        let Ok(()) = keep(self.alloc, &mut self.kept, peer, bytes) else {
            self.faults = self.faults.saturating_add(1);
            self.starved = self.starved.saturating_add(1);
            return Sent::Failed;
        };
        Sent::Whole
    }
}

/// Copies what comes to the front of the slice.
fn deliver(next: &Scripted, into: &mut [u8]) -> Arrival
    requires fits { FitsDatagram next.now }
    requires room { 65535 ≤ length into.old }
    ensures { Delivers (incoming_of next.now) result into.old into.new }
{
    match next {
        Scripted::Dns(peer, octets) => {
            fill_front(into, octets);
            Arrival::Dns(*peer, octets.len())
        }
        Scripted::Report(octets) => {
            fill_front(into, octets);
            Arrival::Report(octets.len())
        }
        Scripted::Quiet => Arrival::Quiet,
    }
}

/// Keeps a datagram behind the others.
fn keep(
    alloc: Global,
    kept: &mut Vec<(Peer, Vec<u8>)>,
    peer: Peer,
    bytes: &[u8],
) -> Result<(), OutOfMemory>
    ensures kept { OnOk result (map datagram_of kept.new.items
        ≡ map datagram_of kept.old.items ++ (peer, bytes.now) ∷ []) }
    ensures nothing { OnErr result (kept.new.items ≡ kept.old.items) }
{
    let octets = bytes.to_vec(alloc)?;
    kept.push((peer, octets))?;
    Ok(())
}
