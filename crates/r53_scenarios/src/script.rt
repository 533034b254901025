//! What a run of a scenario is over: tables, input, arrivals, random words, the files, and the calls
//! that fail.

use crate::setting::{Setting, take_setting};
use octets::{OutOfMemory, append};
use prefix_text::read_number;
use r53_io::{IpAddress, Peer, Scripted};
use scenario_words::{Asked, Fault, joined, parted, query_line, read_asked, read_hex};
use std::alloc::Global;

/// What a run is over.
#[derive(Drop)]
pub struct Script {
    /// The rows of the tables, each with a line feed.
    pub tables: Vec<u8>,
    /// The control lines, each with a line feed.
    pub input: Vec<u8>,
    /// What comes from the network.
    pub arrivals: Vec<Scripted>,
    /// The random words of each datagram on the query port.
    pub words: Vec<u64>,
    /// Files, pieces and failures.
    pub setting: Setting,
}

impl Script {
    /// A run without lines.
    pub fn new(alloc: Global) -> Script {
        Script {
            tables: Vec::new(alloc),
            input: Vec::new(alloc),
            arrivals: Vec::new(alloc),
            words: Vec::new(alloc),
            setting: Setting::new(alloc),
        }
    }
}

/// Adds what a line says.
pub fn take_line(alloc: Global, line: &[u8], script: &mut Script) -> Result<(), Fault> {
    let whole = joined(alloc, line, 0)?;
    match whole.as_slice() {
        [] | [b'#' | b'<' | b'=' | b'!', ..] => Ok(()),
        [b'@', b' ', row @ ..] => Ok(put_line(row, &mut script.tables)?),
        [b':', b' ', text @ ..] => take_setting(alloc, text, &mut script.setting),
        [b'~', b' ', text @ ..] => take_arrival(alloc, text, script),
        _ => take_control(alloc, line, &whole, &mut script.input),
    }
}

/// Adds a control line, or many.
fn take_control(
    alloc: Global,
    line: &[u8],
    whole: &[u8],
    input: &mut Vec<u8>,
) -> Result<(), Fault> {
    match whole {
        [b'>'] => Ok(put_line(b"", input)?),
        [b'>', b' ', control @ ..] => Ok(put_line(control, input)?),
        [b'?', b' ', text @ ..] => take_query(alloc, text, input),
        [b'*', b' ', many @ ..] => take_many(alloc, line, many, input),
        _ => Err(Fault::NoSuchForm),
    }
}

/// Appends a line.
fn put_line(line: &[u8], into: &mut Vec<u8>) -> Result<(), OutOfMemory> {
    append(line, into)?;
    append(b"\n", into)
}

/// Adds a line so many times, each with its number from 0.
fn take_many(alloc: Global, line: &[u8], many: &[u8], input: &mut Vec<u8>) -> Result<(), Fault> {
    let times = times_of(many)?;
    for number in 0..times {
        let whole = joined(alloc, line, number)?;
        put_line(behind_count(&whole), input)?;
    }
    Ok(())
}

/// How many there are to be.
pub fn times_of(many: &[u8]) -> Result<u32, Fault> {
    let (count, _) = parted(many, b' ');
    match read_number(count, 65_535) {
        Some(times) => Ok(times),
        None => Err(Fault::NoSuchForm),
    }
}

/// What stands behind the mark and the number of many.
pub fn behind_count(whole: &[u8]) -> &[u8] {
    let (_, many) = parted(whole, b' ');
    let (_, each) = parted(many, b' ');
    each
}

/// Adds the line of a query in words.
fn take_query(alloc: Global, text: &[u8], input: &mut Vec<u8>) -> Result<(), Fault> {
    let asked = read_asked(alloc, text)?;
    let line = query_line(alloc, &asked.packet, asked.from, &asked.words)?;
    put_line(&line, input)?;
    Ok(())
}

/// What comes from the network.
#[derive(Drop)]
pub enum Coming {
    /// A packet from an address, with the random words for it.
    Packet(IpAddress, Vec<u8>, [u64; 8]),
    /// A datagram on the report port.
    Report(Vec<u8>),
    /// Nothing for a while.
    Quiet,
}

/// The address from which packets in hexadecimal digits come.
const ANYBODY: IpAddress = IpAddress::V4([203, 0, 113, 1]);

/// What comes by a text: `quiet`, `report TEXT`, `packet HEX`, or a query in words.
pub fn coming_of(alloc: Global, text: &[u8]) -> Result<Coming, Fault> {
    let (word, behind) = parted(text, b' ');
    match word {
        b"quiet" => Ok(Coming::Quiet),
        b"report" => reported(alloc, behind),
        b"packet" => sent(alloc, behind),
        _ => asked(alloc, text),
    }
}

/// A datagram on the report port.
fn reported(alloc: Global, text: &[u8]) -> Result<Coming, Fault> {
    let mut datagram = Vec::new(alloc);
    append(text, &mut datagram)?;
    Ok(Coming::Report(datagram))
}

/// A packet in hexadecimal digits.
fn sent(alloc: Global, digits: &[u8]) -> Result<Coming, Fault> {
    let packet = read_hex(alloc, digits)?;
    Ok(Coming::Packet(ANYBODY, packet, [0; 8]))
}

/// A query in words.
fn asked(alloc: Global, text: &[u8]) -> Result<Coming, Fault> {
    let Asked {
        packet,
        from,
        words,
    } = read_asked(alloc, text)?;
    Ok(Coming::Packet(from, packet, words))
}

/// The peer of the arrival of a number: each has a port of its own.
pub fn peer_of(address: IpAddress, number: usize) -> Peer {
    Peer {
        address,
        port: (number % 60_000) as u16 + 1024,
    }
}

/// Adds what comes.
fn take_arrival(alloc: Global, text: &[u8], script: &mut Script) -> Result<(), Fault> {
    let number = script.arrivals.len();
    let arrival = match coming_of(alloc, text)? {
        Coming::Packet(from, packet, words) => {
            put_words(&words, &mut script.words)?;
            Scripted::Dns(peer_of(from, number), packet)
        }
        Coming::Report(datagram) => Scripted::Report(datagram),
        Coming::Quiet => Scripted::Quiet,
    };
    Ok(put_arrival(arrival, &mut script.arrivals)?)
}

/// Appends an arrival.
fn put_arrival(arrival: Scripted, into: &mut Vec<Scripted>) -> Result<(), OutOfMemory> {
    into.push(arrival)?;
    Ok(())
}

/// Appends words.
fn put_words(words: &[u64; 8], into: &mut Vec<u64>) -> Result<(), OutOfMemory> {
    into.extend_from_slice(words)?;
    Ok(())
}
