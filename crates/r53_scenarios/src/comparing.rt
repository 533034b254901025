//! What a run wrote and sent, compared with what its scenario says.
//!
//! Each line that is taken has to be told as it came before the next one is taken, and nothing else may
//! come.

use crate::ending::put_end;
use crate::running::{Came, Files};
use crate::script::{Coming, behind_count, coming_of, peer_of, times_of};
use octets::{OutOfMemory, append, behind};
use r53_disk::{MemoryDisk, Torn};
use r53_io::{IpAddress, Peer};
use scenario_words::{
    Fault, joined, parted, put_hex, put_number, read_asked, reply_packet, told_of,
};
use session_run::{Ended, Ran};
use std::alloc::Global;

/// How far a run is compared.
#[derive(Drop)]
pub struct Stage {
    came: Came,
    /// How many octets that were written are compared.
    written: usize,
    /// How many datagrams that were sent are compared.
    sent: usize,
    /// How many arrivals there were.
    arrivals: usize,
    /// Lines that came, of which none has been met yet.
    lines: Vec<u8>,
    /// Whether the end was told.
    ended: bool,
    /// How many lines were met.
    pub met: u64,
}

/// Where what came differs: what was wanted there, and what came.
#[derive(Drop)]
pub struct Difference {
    pub wanted: Vec<u8>,
    pub came: Vec<u8>,
}

/// The beginning of a comparison.
pub fn begin(alloc: Global, came: Came) -> Stage {
    Stage {
        came,
        written: 0,
        sent: 0,
        arrivals: 0,
        lines: Vec::new(alloc),
        ended: false,
        met: 0,
    }
}

/// Compares what a line of a scenario says.
pub fn compare_line(
    alloc: Global,
    line: &[u8],
    files: &Files,
    stage: &mut Stage,
) -> Result<Option<Difference>, Fault> {
    let whole = joined(alloc, line, 0)?;
    match whole.as_slice() {
        [] | [b'#', ..] => Ok(None),
        [b'<', ..] => meet(alloc, &whole, stage),
        [b'=', b'*', b' ', many @ ..] => meet_many(alloc, line, many, stage),
        [b'=', ..] => meet(alloc, &whole, stage),
        [b'!', ..] => {
            let surplus = surplus(alloc, stage)?;
            put_state(alloc, &whole, files, stage)?;
            match surplus {
                Some(difference) => Ok(Some(difference)),
                None => meet(alloc, &whole, stage),
            }
        }
        _ => {
            let surplus = surplus(alloc, stage)?;
            go_on(alloc, line, &whole, stage)?;
            Ok(surplus)
        }
    }
}

/// Compares a line with the next one that came.
fn meet(alloc: Global, wanted: &[u8], stage: &mut Stage) -> Result<Option<Difference>, Fault> {
    let (first, rest) = parted(&stage.lines, b'\n');
    if first != wanted {
        return Ok(Some(differing(alloc, wanted, first)?));
    }
    let mut lines = Vec::new(alloc);
    append(rest, &mut lines)?;
    stage.lines = lines;
    stage.met = stage.met.saturating_add(1);
    Ok(None)
}

/// A difference.
fn differing(alloc: Global, wanted: &[u8], came: &[u8]) -> Result<Difference, OutOfMemory> {
    let mut wants = Vec::new(alloc);
    append(wanted, &mut wants)?;
    let mut comes = Vec::new(alloc);
    append(came, &mut comes)?;
    Ok(Difference {
        wanted: wants,
        came: comes,
    })
}

/// Compares so many lines, of numbers from 0, with the next ones that came.
fn meet_many(
    alloc: Global,
    line: &[u8],
    many: &[u8],
    stage: &mut Stage,
) -> Result<Option<Difference>, Fault> {
    let times = times_of(many)?;
    for number in 0..times {
        let wanted = wanted_of(alloc, line, number)?;
        match meet(alloc, &wanted, stage)? {
            Some(difference) => return Ok(Some(difference)),
            None => {}
        }
    }
    Ok(None)
}

/// The line of a number, of many that have to come.
fn wanted_of(alloc: Global, line: &[u8], number: u32) -> Result<Vec<u8>, Fault> {
    let whole = joined(alloc, line, number)?;
    let mut wanted = Vec::new(alloc);
    append(b"= ", &mut wanted)?;
    append(behind_count(&whole), &mut wanted)?;
    Ok(wanted)
}

/// A line that came and that the scenario hasn't.
fn surplus(alloc: Global, stage: &Stage) -> Result<Option<Difference>, OutOfMemory> {
    if stage.lines.is_empty() {
        return Ok(None);
    }
    let (first, _) = parted(&stage.lines, b'\n');
    Ok(Some(differing(alloc, b"nothing more", first)?))
}

/// Takes what a line of the scenario brought, as lines that have to be met next.
fn go_on(alloc: Global, line: &[u8], whole: &[u8], stage: &mut Stage) -> Result<(), Fault> {
    let mut lines = Vec::new(alloc);
    match whole {
        [b'>', control @ ..] => {
            if !control.trim_ascii().is_empty() {
                put_reply(stage, &mut lines)?;
            }
        }
        [b'*', b' ', many @ ..] => put_done(times_of(many)?, stage, &mut lines)?,
        [b'?', b' ', text @ ..] => put_answer(alloc, text, stage, &mut lines)?,
        [b'~', b' ', text @ ..] => put_sent(alloc, text, stage, &mut lines)?,
        _ => {}
    }
    stage.lines = lines;
    Ok(())
}

/// The next line that was written, if there is one, and goes on behind it.
fn next_reply(stage: &mut Stage) -> Option<&[u8]> {
    let written = stage.came.out.bytes();
    let left = written.get(stage.written..).unwrap_or(&[]);
    if left.is_empty() {
        return None;
    }
    let (reply, _) = parted(left, b'\n');
    stage.written = stage.written.saturating_add(reply.len()).saturating_add(1);
    Some(reply)
}

/// Puts the next line that was written.
fn put_reply(stage: &mut Stage, into: &mut Vec<u8>) -> Result<(), OutOfMemory> {
    match next_reply(stage) {
        Some(reply) => {
            append(b"< ", into)?;
            append(reply, into)
        }
        None => Ok(()),
    }
}

/// Puts how many of the next lines that were written tell no error.
fn put_done(times: u32, stage: &mut Stage, into: &mut Vec<u8>) -> Result<(), OutOfMemory> {
    let mut done: u64 = 0;
    for _ in 0..times {
        match next_reply(stage) {
            Some(reply) => {
                if !has_error(reply) {
                    done = done.saturating_add(1);
                }
            }
            None => {}
        }
    }
    append(b"< ", into)?;
    put_number(done, into)?;
    append(b" times Ok", into)
}

/// Whether a reply tells an error.
fn has_error(reply: &[u8]) -> bool {
    for i in 0..reply.len() {
        if reply[i..].starts_with(b"\"Error\":") {
            return true;
        }
    }
    false
}

/// Puts the reply to a query in words.
fn put_answer(
    alloc: Global,
    text: &[u8],
    stage: &mut Stage,
    into: &mut Vec<u8>,
) -> Result<(), Fault> {
    let asked = read_asked(alloc, text)?;
    let Some(line) = next_reply(stage) else {
        return Ok(());
    };
    match reply_packet(alloc, line)? {
        Some(reply) => put_told(alloc, &asked.packet, &reply, into),
        None => Ok(append(b"= none", into)?),
    }
}

/// Puts what a reply to a packet tells.
fn put_told(alloc: Global, packet: &[u8], reply: &[u8], into: &mut Vec<u8>) -> Result<(), Fault> {
    let told = told_of(alloc, packet, reply)?;
    append(&told, into)?;
    Ok(())
}

/// Puts what was sent to an arrival of the network.
fn put_sent(
    alloc: Global,
    text: &[u8],
    stage: &mut Stage,
    into: &mut Vec<u8>,
) -> Result<(), Fault> {
    let number = stage.arrivals;
    stage.arrivals = number.saturating_add(1);
    match coming_of(alloc, text)? {
        Coming::Packet(from, packet, _) => {
            put_datagram(alloc, peer_of(from, number), &packet, stage, into)
        }
        _ => Ok(()),
    }
}

/// Puts what was sent to a peer.
fn put_datagram(
    alloc: Global,
    peer: Peer,
    packet: &[u8],
    stage: &mut Stage,
    into: &mut Vec<u8>,
) -> Result<(), Fault> {
    match stage.came.link.sent(stage.sent) {
        Some((to, reply)) if is_same(to, peer) => {
            put_told(alloc, packet, reply, into)?;
            stage.sent = stage.sent.saturating_add(1);
            Ok(())
        }
        _ => Ok(append(b"= none", into)?),
    }
}

/// Whether two peers are one.
fn is_same(one: Peer, other: Peer) -> bool {
    if one.port != other.port {
        return false;
    }
    match (one.address, other.address) {
        (IpAddress::V4(x), IpAddress::V4(y)) => x == y,
        (IpAddress::V6(x), IpAddress::V6(y)) => x == y,
        _ => false,
    }
}

/// Puts what the scenario asks of the end: what a file holds, or what the run came to.
fn put_state(alloc: Global, whole: &[u8], files: &Files, stage: &mut Stage) -> Result<(), Fault> {
    let mut lines = Vec::new(alloc);
    if whole.starts_with(b"! file a holds") {
        append(b"! file a holds", &mut lines)?;
        put_file(alloc, &files.a, &mut lines)?;
    } else if whole.starts_with(b"! file b holds") {
        append(b"! file b holds", &mut lines)?;
        put_file(alloc, &files.b, &mut lines)?;
    } else {
        put_last(alloc, stage, &mut lines)?;
        stage.ended = true;
    }
    stage.lines = lines;
    Ok(())
}

/// Puts the octets of a file.
fn put_file(alloc: Global, file: &MemoryDisk, into: &mut Vec<u8>) -> Result<(), OutOfMemory> {
    let octets = file.image(Torn::Kept)?;
    if !octets.is_empty() {
        append(b" ", into)?;
    }
    put_hex(alloc, &octets, into)
}

/// Puts what came last: a line that no line of the scenario brought, a datagram to nobody, or the end.
fn put_last(alloc: Global, stage: &mut Stage, into: &mut Vec<u8>) -> Result<(), Fault> {
    if let Some(reply) = next_reply(stage) {
        append(b"< ", into)?;
        append(reply, into)?;
        return Ok(());
    }
    if let Some((_, reply)) = stage.came.link.sent(stage.sent) {
        append(b"= sent ", into)?;
        put_hex(alloc, reply, into)?;
        return Ok(());
    }
    append(b"! ", into)?;
    put_end(stage.came.ran, into)?;
    Ok(())
}

/// What differs at the end of a run: something more came, or it didn't end by the end of its lines.
pub fn compare_end(alloc: Global, stage: &mut Stage) -> Result<Option<Difference>, Fault> {
    if let Some(difference) = surplus(alloc, stage)? {
        return Ok(Some(difference));
    }
    if stage.ended {
        return Ok(None);
    }
    let mut last = Vec::new(alloc);
    put_last(alloc, stage, &mut last)?;
    if last.as_slice() == b"! done".as_slice() {
        return Ok(None);
    }
    Ok(Some(differing(alloc, b"! done", &last)?))
}
