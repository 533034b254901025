//! The fields of records in words: TTL, type and value, and what an OPT record tells.

use crate::fault::Fault;
use crate::lines::put_number;
use crate::names::put_name;
use crate::telling::{Record, put_if};
use address_text::{write_ipv4, write_ipv6};
use octets::{OutOfMemory, append};
use rdata::{RData, RType, WireFault};
use std::alloc::Global;

/// Appends TTL, type and value of a record.
pub fn put_value(
    alloc: Global,
    packet: &[u8],
    record: &Record,
    into: &mut Vec<u8>,
) -> Result<(), Fault> {
    append(b" ", into)?;
    put_number(u64::from(record.ttl), into)?;
    put_if(record.class != 1, b" of another class", into)?;
    append(b" ", into)?;
    let Some(rtype) = RType::from_number(record.rtype) else {
        append(b"of another type", into)?;
        return Ok(());
    };
    append(rtype.text(), into)?;
    append(b" ", into)?;
    let wire = wire_of(alloc, packet, record, rtype)?;
    put_text(alloc, rtype, &wire, into)
}

/// The octets of a value with its names whole (RFC 1035, 3.3 and 4.1.4).
fn wire_of(alloc: Global, packet: &[u8], record: &Record, rtype: RType) -> Result<Vec<u8>, Fault> {
    let mut wire = Vec::new(alloc);
    let (before, names) = names_of(rtype);
    let mut at = record.start.saturating_add(before);
    append(packet.get(record.start..at).unwrap_or(&[]), &mut wire)?;
    for _ in 0..names {
        at = put_name(packet, at, &mut wire)?;
    }
    append(packet.get(at..record.end).unwrap_or(&[]), &mut wire)?;
    Ok(wire)
}

/// How many octets stand before the names of a value whose names may be cut short, and how many
/// names there are.
fn names_of(rtype: RType) -> (usize, u8) {
    match rtype {
        RType::Ns | RType::Cname | RType::Ptr => (0, 1),
        RType::Mx => (2, 1),
        RType::Soa => (0, 2),
        _ => (0, 0),
    }
}

/// Appends the text of a value.
fn put_text(alloc: Global, rtype: RType, wire: &[u8], into: &mut Vec<u8>) -> Result<(), Fault> {
    match RData::from_wire(alloc, rtype, wire) {
        Ok(value) => {
            let mut text = [0; 16384];
            let len = value.write_text(&mut text);
            append(text.get(..len).unwrap_or(&[]), into)?;
            Ok(())
        }
        Err(WireFault::OutOfMemory) => Err(Fault::OutOfMemory),
        Err(WireFault::Bad) => Err(Fault::NoMessage),
    }
}

/// Appends what an OPT record tells: the size that it takes, its version where that isn't 0, DO, and
/// a client subnet (RFC 6891, 6.1; RFC 7871, 6).
pub fn put_opt(record: &Record, data: &[u8], into: &mut Vec<u8>) -> Result<(), OutOfMemory> {
    append(b"= opt ", into)?;
    put_number(u64::from(record.class), into)?;
    put_if(record.ttl / 0x1_0000 % 256 > 0, b" version", into)?;
    put_if(record.ttl % 0x1_0000 == 0x8000, b" dnssec", into)?;
    put_if(record.ttl % 0x8000 > 0, b" other flags", into)?;
    match data {
        [] => Ok(()),
        [0, 8, 0, _, 0, family, source, scope, address @ ..] => {
            put_subnet(*family, *source, *scope, address, into)
        }
        _ => append(b" other options", into),
    }
}

/// Appends a client subnet.
fn put_subnet(
    family: u8,
    source: u8,
    scope: u8,
    address: &[u8],
    into: &mut Vec<u8>,
) -> Result<(), OutOfMemory> {
    append(b" subnet ", into)?;
    put_address(family, address, into)?;
    append(b"/", into)?;
    put_number(u64::from(source), into)?;
    append(b" scope ", into)?;
    put_number(u64::from(scope), into)
}

/// Appends an address of a family, of which the first octets are given.
fn put_address(family: u8, address: &[u8], into: &mut Vec<u8>) -> Result<(), OutOfMemory> {
    let mut octets = [0; 16];
    for i in 0..address.len().min(16) {
        octets[i] = address[i];
    }
    let mut text = [0; 64];
    let end = if family == 1 {
        write_ipv4(&octets[..4], &mut text, 0)
    } else {
        write_ipv6(&octets, &mut text, 0)
    };
    append(text.get(..end).unwrap_or(&[]), into)
}
