//! Replies to packets in words, a line for each thing that a reply has.
//!
//! `= NOERROR aa` is the header; then `= answer www.example.com. 300 A 192.0.2.1` and so on, section
//! by section; and last `= opt 4096` with what the OPT record tells. What is the same in each reply
//! isn't told: the id, QR, RD, the question, class IN. Where it is another, the header's line says so.

ghost use Rattle.std.specs.Prelude.{◌≤◌, length};

use crate::fault::Fault;
use crate::names::{put_name, put_name_text};
use crate::values::{put_opt, put_value};
use dns_name::Name;
use octets::{OutOfMemory, append, long_at, number_at};
use std::alloc::Global;

/// The length of a header (RFC 1035, 4.1.1).
const HEADER_LEN: usize = 12;

/// The number of the type OPT (RFC 6891, 6.1.1).
const OPT: u16 = 41;

/// A record, but for its owner (RFC 1035, 4.1.3), and where its data stands.
#[derive(Clone, Copy)]
pub struct Record {
    pub rtype: u16,
    pub class: u16,
    pub ttl: u32,
    pub start: usize,
    pub end: usize,
}

/// The reply to a packet that was sent, in words.
pub fn told_of(alloc: Global, sent: &[u8], reply: &[u8]) -> Result<Vec<u8>, Fault> {
    if reply.len() < HEADER_LEN {
        return Err(Fault::NoMessage);
    }
    let mut records = Vec::new(alloc);
    let high = put_sections(alloc, reply, question_end(reply), &mut records)?;
    let mut words = Vec::new(alloc);
    put_header(reply, high, &mut words)?;
    put_differences(sent, reply, &mut words)?;
    append(b"\n", &mut words)?;
    append(&records, &mut words)?;
    Ok(words)
}

/// Where the question of a message ends, if it has one.
fn question_end(message: &[u8]) -> usize
    requires { 12 ≤ length message.now }
{
    if number_at(message, 4) == 0 {
        return HEADER_LEN;
    }
    match Name::from_wire(&message[HEADER_LEN..]) {
        Some((_, len)) => HEADER_LEN + len + 4,
        None => HEADER_LEN,
    }
}

/// Appends RCODE, whose high octet the OPT record has, AA and TC.
fn put_header(reply: &[u8], high: u32, into: &mut Vec<u8>) -> Result<(), OutOfMemory>
    requires { 12 ≤ length reply.now }
{
    let flags = number_at(reply, 2);
    append(b"= ", into)?;
    append(rcode_text(high % 256 * 16 + u32::from(flags % 16)), into)?;
    put_if(flags / 1024 % 2 == 1, b" aa", into)?;
    put_if(flags / 512 % 2 == 1, b" tc", into)
}

/// The text of RCODE (RFC 1035, 4.1.1; RFC 6891, 9).
fn rcode_text(rcode: u32) -> &'static [u8] {
    match rcode {
        0 => b"NOERROR",
        1 => b"FORMERR",
        3 => b"NXDOMAIN",
        4 => b"NOTIMP",
        5 => b"REFUSED",
        16 => b"BADVERS",
        _ => b"another RCODE",
    }
}

/// Appends what differs from what each reply has, and that there is no question.
fn put_differences(sent: &[u8], reply: &[u8], into: &mut Vec<u8>) -> Result<(), OutOfMemory>
    requires { 12 ≤ length reply.now }
{
    let flags = number_at(reply, 2);
    let end = question_end(reply);
    put_if(sent.get(..2) != reply.get(..2), b", another id", into)?;
    put_if(flags / 256 % 2 == 0, b", no rd", into)?;
    put_if(
        flags / 2048 != 16 || flags / 16 % 16 != 0,
        b", other flags",
        into,
    )?;
    if number_at(reply, 4) == 0 {
        return append(b", no question", into);
    }
    put_if(
        sent.get(HEADER_LEN..end) != reply.get(HEADER_LEN..end),
        b", another question",
        into,
    )
}

/// Appends a text where something holds.
pub fn put_if(holds: bool, text: &[u8], into: &mut Vec<u8>) -> Result<(), OutOfMemory> {
    if holds {
        return append(text, into);
    }
    Ok(())
}

/// Appends the records of all sections, and tells the TTL of the OPT record, or 0.
fn put_sections(
    alloc: Global,
    reply: &[u8],
    question_end: usize,
    into: &mut Vec<u8>,
) -> Result<u32, Fault>
    requires { 12 ≤ length reply.now }
{
    let mut place = Place {
        at: question_end,
        high: 0,
    };
    let answers = number_at(reply, 6);
    put_section(alloc, reply, b"= answer ", answers, &mut place, into)?;
    let authority = number_at(reply, 8);
    put_section(alloc, reply, b"= authority ", authority, &mut place, into)?;
    let additional = number_at(reply, 10);
    put_section(alloc, reply, b"= additional ", additional, &mut place, into)?;
    if place.at != reply.len() {
        return Err(Fault::NoMessage);
    }
    Ok(place.high)
}

/// Where the next record stands, and the high octet of RCODE.
#[derive(Clone, Copy)]
struct Place {
    at: usize,
    high: u32,
}

/// Appends the records of a section.
fn put_section(
    alloc: Global,
    reply: &[u8],
    section: &[u8],
    count: u16,
    place: &mut Place,
    into: &mut Vec<u8>,
) -> Result<(), Fault> {
    for _ in 0..count {
        put_record(alloc, reply, section, place, into)?;
    }
    Ok(())
}

/// Appends the record at a place, and goes on to the next.
fn put_record(
    alloc: Global,
    reply: &[u8],
    section: &[u8],
    place: &mut Place,
    into: &mut Vec<u8>,
) -> Result<(), Fault> {
    let mut owner = Vec::new(alloc);
    let at = put_name(reply, place.at, &mut owner)?;
    let record = record_at(reply, at)?;
    let data = reply.get(record.start..record.end).unwrap_or(&[]);
    place.at = record.end;
    if record.rtype == OPT {
        place.high = record.ttl / 0x0100_0000;
        put_opt(&record, data, into)?;
    } else {
        append(section, into)?;
        put_name_text(&owner, into)?;
        put_value(alloc, reply, &record, into)?;
    }
    append(b"\n", into)?;
    Ok(())
}

/// The record whose fields stand at a place.
fn record_at(packet: &[u8], at: usize) -> Result<Record, Fault> {
    let fields = packet.get(at..).unwrap_or(&[]);
    if fields.len() < 10 {
        return Err(Fault::NoMessage);
    }
    let length = number_at(fields, 8) as usize;
    if fields.len() < 10 + length {
        return Err(Fault::NoMessage);
    }
    let start = packet.len() - fields.len() + 10;
    Ok(Record {
        rtype: number_at(fields, 0),
        class: number_at(fields, 2),
        ttl: long_at(fields, 4),
        start,
        end: start + length,
    })
}
