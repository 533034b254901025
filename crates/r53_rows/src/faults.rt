//! Each call of a disk failing once, in sessions over objects in memory: how each ends, what it wrote by
//! then, and what the two files dump as behind a crash.
//!
//! A call that fails may have been tried. So a crash behind it leaves what a stop before it, in it or
//! behind it does.

use crate::lines::{CHECKS, FIRST_ZONE, IN_PIECES, Session, count_lines};
use crate::stores::{run_words, with};
use crate::two_disks::{Disks, behind_crash, make_disks};
use octets::OutOfMemory;
use r53_cli::{Side, Status};
use r53_disk::Torn;
use r53_io::VecSink;
use std::alloc::Global;
use std::process::Abort;
use std::test::Fail;

/// The room of an output, in octets.
const ROOM: usize = 4096;

/// How many calls are tried; no session makes as many.
const CALLS: u64 = 200;

/// What a crash leaves of octets that weren't synced.
const TORN: [Torn; 3] = [Torn::Kept, Torn::Lost, Torn::Filled(1)];

/// What a store may dump as: what it does behind the lines that were replied, or behind the next one.
#[derive(Clone, Copy)]
struct Dumps {
    before: &'static [u8],
    after: &'static [u8],
}

/// Whether a store dumps as one of the two, where a crash leaves these images of its files.
fn opens_torn(
    alloc: Global,
    dumps: Dumps,
    before: &Disks,
    a_torn: Torn,
    b_torn: Torn,
) -> Result<bool, Fail> {
    let mut disks = behind_crash(alloc, before, a_torn, b_torn)?;
    let opened = is_dumped(alloc, dumps, &mut disks);
    drop(disks);
    opened
}

/// Whether a store dumps as one of the two.
fn is_dumped(alloc: Global, dumps: Dumps, disks: &mut Disks) -> Result<bool, Fail> {
    let mut sink = VecSink::new(alloc, ROOM, &[])?;
    let ended = run_words(alloc, &["dump"], &[], 1, &[], &mut sink, disks);
    let told = with(ended, is_one_of(dumps, sink.bytes()));
    drop(sink);
    let (status, is_one) = told?;
    Ok(status == Status::Done && is_one)
}

/// Whether a dump is one of the two.
fn is_one_of(dumps: Dumps, dump: &[u8]) -> bool {
    dump == dumps.before || dump == dumps.after
}

/// The same for each image of file b.
fn opens_with(
    alloc: Global,
    dumps: Dumps,
    before: &Disks,
    a_torn: Torn,
    torn: &[Torn],
) -> Result<bool, Fail> {
    for b_torn in torn {
        if !opens_torn(alloc, dumps, before, a_torn, *b_torn)? {
            return Ok(false);
        }
    }
    Ok(true)
}

/// The same for each pair of these images.
fn opens_all(alloc: Global, dumps: Dumps, before: &Disks, torn: &[Torn]) -> Result<bool, Fail> {
    for a_torn in torn {
        if !opens_with(alloc, dumps, before, *a_torn, torn)? {
            return Ok(false);
        }
    }
    Ok(true)
}

/// Whether a store, where so many lines were replied, dumps as behind these or behind the next one, in
/// each pair of images that a crash may leave of its files.
fn opens(alloc: Global, session: &Session, before: &Disks, lines: usize) -> Result<bool, Fail> {
    let dumps = Dumps {
        before: session.dump_behind(lines),
        after: session.dump_behind(lines.saturating_add(1)),
    };
    opens_all(alloc, dumps, before, &TORN)
}

/// The disks of a session, of which one has a call that fails.
fn disks_of(alloc: Global, session: &Session, side: Side, call: u64) -> Result<Disks, OutOfMemory> {
    match side {
        Side::A => make_disks(alloc, session.file, &[call], &[]),
        Side::B => make_disks(alloc, session.file, &[], &[call]),
    }
}

/// Whether the first replies were written, all of them where the session ended well.
fn is_replied(session: &Session, status: Status, written: &[u8]) -> bool {
    let lines = count_lines(written);
    if status == Status::Done {
        return written == session.replies;
    }
    written == session.replies_to(lines)
}

/// How a session ends, and whether all is as it should be, where a call of a disk fails.
fn run_with_fault(
    alloc: Global,
    session: &Session,
    side: Side,
    call: u64,
) -> Result<(Status, bool), Fail> {
    let mut disks = disks_of(alloc, session, side, call)?;
    let told = run_on(alloc, session, &mut disks);
    drop(disks);
    told
}

/// The same on these disks.
fn run_on(alloc: Global, session: &Session, disks: &mut Disks) -> Result<(Status, bool), Fail> {
    let mut sink = VecSink::new(alloc, ROOM, &[])?;
    let told = run_into(alloc, session, disks, &mut sink);
    drop(sink);
    told
}

/// The same into a sink.
fn run_into(
    alloc: Global,
    session: &Session,
    disks: &mut Disks,
    sink: &mut VecSink,
) -> Result<(Status, bool), Fail> {
    let status = run_words(alloc, &["run"], session.lines, 50, &[], sink, disks)?;
    let lines = count_lines(sink.bytes());
    let stands = opens(alloc, session, disks, lines)?;
    Ok((status, is_replied(session, status, sink.bytes()) && stands))
}

/// Whether a session, where a call of a disk fails, ends well; it stands as it should, and tells a fault of the
/// disk where it doesn't.
fn ends_well(
    rt: &impl Abort,
    alloc: Global,
    session: &Session,
    side: Side,
    call: u64,
) -> Result<bool, Fail> {
    let (status, stands) = run_with_fault(alloc, session, side, call)?;
    let well = status == Status::Done;
    assert!(rt;
        stands && (well || status == Status::DiskFault),
        "call {call} of {side:?}"
    );
    Ok(well)
}

/// The last call of a disk at which a session fails.
fn last_call(rt: &impl Abort, alloc: Global, session: &Session, side: Side) -> Result<u64, Fail> {
    let mut last = 0;
    for call in 0..CALLS {
        if ends_well(rt, alloc, session, side, call)? {
            return Ok(last);
        }
        last = call;
    }
    Ok(CALLS)
}

/// The last calls of the two disks at which a session fails are these.
fn check_last_calls(
    rt: &impl Abort,
    alloc: Global,
    session: &Session,
    last: [u64; 2],
) -> Result<(), Fail> {
    let a = last_call(rt, alloc, session, Side::A)?;
    let b = last_call(rt, alloc, session, Side::B)?;
    assert_eq!(rt; [a, b], last);
    Ok(())
}

#[test]
fn each_call_of_a_disk(rt: HostRuntime) -> Result<(), Fail> {
    check_last_calls(&rt, rt.alloc(), &CHECKS, [18, 13])?;
    check_last_calls(&rt, rt.alloc(), &FIRST_ZONE, [17, 1])?;
    check_last_calls(&rt, rt.alloc(), &IN_PIECES, [14, 9])
}
