//! Queries for addresses and servers, and the replies to them.

use crate::made::name;
use address_text::IpAddress;
use dns_wire::Reply;
use geo_latency::Tables;
use policy_select::AllHealthy;
use query_engine::answer;
use settled_replies::settle;
use std::alloc::Global;
use std::process::Abort;
use std::test::Fail;
use zone_lookup::are_served;
use zone_table::{Scratch, Zones};

/// The octets of a question.
pub fn question(
    rt: &impl Abort,
    alloc: Global,
    owner: &str,
    qtype: u8,
    qclass: u8,
) -> Result<Vec<u8>, Fail> {
    let mut octets = Vec::new(alloc);
    octets.extend_from_slice(name(rt, owner).octets())?;
    octets.extend_from_slice(&[0, qtype, 0, qclass])?;
    Ok(octets)
}

/// A packet of a question, with id 0x1234 and RD, and with an OPT record where there is one.
pub fn packet(alloc: Global, question: &[u8], opt: &[u8]) -> Result<Vec<u8>, Fail> {
    let more = u8::from(!opt.is_empty());
    let mut octets = Vec::new(alloc);
    octets.extend_from_slice(&[0x12, 0x34, 0x01, 0, 0, 1, 0, 0, 0, 0, 0, more])?;
    octets.extend_from_slice(question)?;
    octets.extend_from_slice(opt)?;
    Ok(octets)
}

/// The octets of a reply.
fn octets_of(alloc: Global, reply: &Reply) -> Result<Vec<u8>, Fail> {
    let mut octets = Vec::new(alloc);
    octets.extend_from_slice(reply.bytes())?;
    Ok(octets)
}

/// The reply to a packet, where all sets are healthy and nothing is told of the client.
pub fn reply_to(
    rt: &impl Abort,
    alloc: Global,
    zones: &Zones,
    packet: &[u8],
) -> Result<Vec<u8>, Fail> {
    let mut scratch = Scratch::new(alloc)?;
    let mut reply = Reply::new(alloc, 4096)?;
    assert!(rt; are_served(zones, &mut scratch), "zones to answer from");
    answer(
        zones,
        &AllHealthy,
        &Tables::new(alloc),
        packet,
        IpAddress::V4([203, 0, 113, 1]),
        &[0; 8],
        &mut scratch,
        &mut reply,
    );
    octets_of(alloc, &reply)
}

/// The reply to it whoever asks, or nothing where it isn't settled.
pub fn settled_to(
    rt: &impl Abort,
    alloc: Global,
    zones: &Zones,
    packet: &[u8],
) -> Result<Vec<u8>, Fail> {
    let mut scratch = Scratch::new(alloc)?;
    let mut reply = Reply::new(alloc, 4096)?;
    assert!(rt; are_served(zones, &mut scratch), "zones to answer from");
    let settled = settle(
        zones,
        &AllHealthy,
        &Tables::new(alloc),
        packet,
        &mut scratch,
        &mut reply,
    );
    if settled.is_none() {
        return Ok(Vec::new(alloc));
    }
    octets_of(alloc, &reply)
}
