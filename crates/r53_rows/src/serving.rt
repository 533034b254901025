//! Each call of the input, of the output and of the network failing once, in a session that serves:
//! how it ends, which lines were replied by then, and how many datagrams were sent.

ghost use Rattle.std.specs.List.{All};
ghost use Rattle.std.specs.Prelude.{IfOk};
ghost use Rattle.r53_io.specs.Script.{FitsDatagram};

use crate::lines::{SERVING, Session, count_lines};
use crate::stores::{run_linked, runs, with};
use crate::two_disks::{Disks, make_disks};
use r53_cli::Status;
use r53_io::{IpAddress, Peer, ScriptLink, Scripted, VecSink};
use std::alloc::Global;
use std::process::Abort;
use std::test::Fail;

/// The most octets of a read.
const PIECE: usize = 50;

/// A query of type A for `nope.example.com`, and the reply that no such name is there.
const QUERY: &[u8] = b"\x12\x34\x01\0\0\x01\0\0\0\0\0\0\x04nope\x07example\x03com\0\0\x01\0\x01";

const REPLY: &[u8] =
    b"\x12\x34\x85\x03\0\x01\0\0\0\x01\0\0\x04nope\x07example\x03com\0\0\x01\0\x01\xc0\x11\0\x06\0\x01\0\0\x03\x84\0\x40\x03ns1\x03r53\x07invalid\0\x11awsdns-hostmaster\x06amazon\xc0\x19\0\0\0\x01\0\0\x1c\x20\0\0\x03\x84\0\x12\x75\0\0\x01\x51\x80";

/// Who asks.
const ASKER: Peer = Peer {
    address: IpAddress::V4([127, 0, 0, 1]),
    port: 1053,
};

/// The query, a report on the check, and one on another.
fn arrivals(alloc: Global) -> Result<Vec<Scripted>, Fail>
    ensures { IfOk result (λ coming. All FitsDatagram coming.items) }
{
    let mut coming = Vec::new(alloc);
    coming.push(Scripted::Dns(ASKER, QUERY.to_vec(alloc)?))?;
    coming.push(Scripted::Report(b"OBS h1 0 0".to_vec(alloc)?))?;
    coming.push(Scripted::Report(b"OBS h9 0 0".to_vec(alloc)?))?;
    Ok(coming)
}

/// The numbers of the calls that fail: of the input, of the output and of the network.
#[derive(Clone, Copy, Debug)]
struct Fails<'f> {
    reads: &'f [u64],
    writes: &'f [u64],
    calls: &'f [u64],
}

/// How many lines a session replied, and how many datagrams it sent.
type End = (usize, usize);

/// How the session ends where these calls fail, and whether it came to this end.
fn run_served(
    alloc: Global,
    session: &Session,
    fails: Fails<'_>,
    end: End,
) -> Result<(Status, bool), Fail> {
    let mut disks = make_disks(alloc, session.file, &[], &[])?;
    let told = run_on(alloc, session, fails, end, &mut disks);
    drop(disks);
    told
}

/// The same on these disks.
fn run_on(
    alloc: Global,
    session: &Session,
    fails: Fails<'_>,
    end: End,
    disks: &mut Disks,
) -> Result<(Status, bool), Fail> {
    let coming = arrivals(alloc)?;
    let mut link = ScriptLink::new(alloc, coming, fails.calls)?;
    let told = run_over(alloc, session, fails, end, disks, &mut link);
    drop(link);
    told
}

/// The same over this network.
fn run_over(
    alloc: Global,
    session: &Session,
    fails: Fails<'_>,
    end: End,
    disks: &mut Disks,
    link: &mut ScriptLink,
) -> Result<(Status, bool), Fail> {
    let mut sink = VecSink::new(alloc, 4096, fails.writes)?;
    let ended = run_linked(
        alloc,
        &["run"],
        session.lines,
        PIECE,
        fails.reads,
        &mut sink,
        disks,
        link,
    );
    let served = is_served(session, sink.bytes(), link, end);
    drop(sink);
    with(ended, served)
}

/// Whether the first datagram that was sent, if any was, is the reply.
fn is_replied(link: &ScriptLink, datagrams: usize) -> bool {
    match link.sent(0) {
        Some((_, octets)) => octets == REPLY,
        None => datagrams == 0,
    }
}

/// Whether a session wrote the replies of so many lines, and sent so many datagrams, each the reply.
fn is_served(session: &Session, written: &[u8], link: &ScriptLink, end: End) -> bool {
    let (lines, datagrams) = end;
    is_replied(link, datagrams)
        && link.sent(datagrams).is_none()
        && written == session.replies_to(lines)
}

/// The session where these calls fail ends so.
fn compare(
    rt: &impl Abort,
    alloc: Global,
    session: &Session,
    fails: Fails<'_>,
    status: Status,
    end: End,
) -> Result<(), Fail> {
    let told = run_served(alloc, session, fails, end)?;
    assert_eq!(rt; told, (status, true), "{fails:?}");
    Ok(())
}

/// Where these calls of the network fail.
fn on_calls(calls: &[u64]) -> Fails<'_> {
    Fails {
        reads: &[],
        writes: &[],
        calls,
    }
}

/// The session where each of these calls of the network fails, and where the next one would.
fn compare_calls(
    rt: &impl Abort,
    alloc: Global,
    session: &Session,
    ends: &[End],
) -> Result<(), Fail> {
    for (call, end) in ends.iter().enumerate() {
        let calls = [call as u64];
        compare(
            rt,
            alloc,
            session,
            on_calls(&calls),
            Status::LinkFault,
            *end,
        )?;
    }
    let calls = [ends.len() as u64];
    compare(rt, alloc, session, on_calls(&calls), Status::Done, (4, 1))
}

/// The calls of the network by what fails: the ports, an arrival or a datagram; with how many lines were
/// replied, and how many datagrams sent.
const ENDS: [End; 6] = [(2, 0), (3, 0), (3, 0), (3, 1), (3, 1), (3, 1)];

#[test]
fn each_call_of_the_network(rt: HostRuntime) -> Result<(), Fail> {
    compare_calls(&rt, rt.alloc(), &SERVING, &ENDS)
}

/// Where these reads fail.
fn on_reads(reads: &[u64]) -> Fails<'_> {
    Fails {
        reads,
        writes: &[],
        calls: &[],
    }
}

/// What the session comes to where a read fails before which so many octets were read: the lines that end within
/// these were taken.
fn end_of(session: &Session, seen: usize) -> End {
    let read = session.lines.get(..seen).unwrap_or(session.lines);
    let lines = count_lines(read);
    (lines, usize::from(lines == 4))
}

/// The session where each of so many reads fails, and where the next one would, which tells the end.
fn compare_reads(
    rt: &impl Abort,
    alloc: Global,
    session: &Session,
    count: u64,
) -> Result<(), Fail> {
    let mut seen: usize = 0;
    for call in 0..count {
        let reads = [call];
        let end = end_of(session, seen);
        compare(rt, alloc, session, on_reads(&reads), Status::ReadFault, end)?;
        seen = seen.saturating_add(PIECE);
    }
    let reads = [count];
    compare(rt, alloc, session, on_reads(&reads), Status::Done, (4, 1))
}

#[test]
fn each_read(rt: HostRuntime) -> Result<(), Fail> {
    compare_reads(&rt, rt.alloc(), &SERVING, 6)
}

/// Where these writes fail.
fn on_writes(writes: &[u64]) -> Fails<'_> {
    Fails {
        reads: &[],
        writes,
        calls: &[],
    }
}

/// The session where a write fails. The files open to where it stands with the line in hand.
fn compare_write(
    rt: &impl Abort,
    alloc: Global,
    session: &Session,
    call: usize,
) -> Result<(), Fail> {
    let mut disks = make_disks(alloc, session.file, &[], &[])?;
    let told = compare_on(rt, alloc, session, call, &mut disks);
    drop(disks);
    told
}

/// The same on these disks.
fn compare_on(
    rt: &impl Abort,
    alloc: Global,
    session: &Session,
    call: usize,
    disks: &mut Disks,
) -> Result<(), Fail> {
    let end = (call, usize::from(call == 3));
    let told = run_on(alloc, session, on_writes(&[call as u64]), end, disks)?;
    assert_eq!(rt; told, (Status::WriteFault, true), "write {call}");
    let dump = session.dump_behind(call.saturating_add(1));
    let dumped = runs(alloc, &["dump"], &[], 1, disks, dump)?;
    assert_eq!(rt; dumped, (Status::Done, true), "write {call}");
    Ok(())
}

/// The session where each of so many writes fails, and where the next one would.
fn compare_writes(
    rt: &impl Abort,
    alloc: Global,
    session: &Session,
    count: usize,
) -> Result<(), Fail> {
    for call in 0..count {
        compare_write(rt, alloc, session, call)?;
    }
    let writes = [count as u64];
    compare(rt, alloc, session, on_writes(&writes), Status::Done, (4, 1))
}

#[test]
fn each_write(rt: HostRuntime) -> Result<(), Fail> {
    compare_writes(&rt, rt.alloc(), &SERVING, 4)
}
