//! A store from its making on: `init`, `run` and `dump` over the same two disks, and over what a crash
//! leaves of them.
//!
//! What a run is over is owned by one function, which makes it, lends it to the next and drops it: so its drop is
//! proved once, and not at each exit of a test.

ghost use Rattle.std.specs.Prelude.{◌≤◌};

use crate::lines::{CHECKS, EMPTY, FIRST_ZONE};
use crate::once::words;
use crate::two_disks::{Disks, behind_crash, empty_disks, make_disks};
use r53_cli::{Side, Status, run};
use r53_disk::Torn;
use r53_io::{ListSource, ScriptLink, VecSink};
use rand_chacha::ChaCha8Rng;
use rand_core::SeedableRng;
use std::alloc::Global;
use std::process::Abort;
use std::test::Fail;

/// The room of an output, in octets.
const ROOM: usize = 4096;

/// How a run over these disks ends whose input is these octets, in pieces of so many, where the reads of these
/// numbers fail and nothing comes from the network.
pub(crate) fn run_words(
    alloc: Global,
    texts: &[&str],
    octets: &[u8],
    piece: usize,
    fails: &[u64],
    sink: &mut VecSink,
    disks: &mut Disks,
) -> Result<Status, Fail>
    requires { 1 ≤ piece }
{
    let mut link = ScriptLink::new(alloc, Vec::new(alloc), &[])?;
    let ended = run_linked(alloc, texts, octets, piece, fails, sink, disks, &mut link);
    drop(link);
    ended
}

/// The same over a network.
pub(crate) fn run_linked(
    alloc: Global,
    texts: &[&str],
    octets: &[u8],
    piece: usize,
    fails: &[u64],
    sink: &mut VecSink,
    disks: &mut Disks,
    link: &mut ScriptLink,
) -> Result<Status, Fail>
    requires { 1 ≤ piece }
{
    let mut input = ListSource::new(alloc, octets, piece, fails)?;
    let ended = run_input(alloc, texts, &mut input, sink, disks, link);
    drop(input);
    ended
}

/// The same with an input.
fn run_input(
    alloc: Global,
    texts: &[&str],
    input: &mut ListSource,
    sink: &mut VecSink,
    disks: &mut Disks,
    link: &mut ScriptLink,
) -> Result<Status, Fail> {
    let args = words(alloc, texts)?;
    let ended = run_args(alloc, &args, input, sink, disks, link);
    drop(args);
    ended
}

/// The same with the words of a command line, and no tables.
fn run_args(
    alloc: Global,
    args: &[String],
    input: &mut ListSource,
    sink: &mut VecSink,
    disks: &mut Disks,
    link: &mut ScriptLink,
) -> Result<Status, Fail> {
    let mut tables = ListSource::new(alloc, &[], 1, &[])?;
    let mut words = ChaCha8Rng::from_seed([0; 32]);
    let status = run(
        alloc,
        args,
        input,
        &mut tables,
        sink,
        &mut disks.a,
        &mut disks.b,
        link,
        &mut words,
    );
    drop(tables);
    Ok(status)
}

/// How a run ended, with what was found of it.
pub(crate) fn with<T: Copy>(ended: Result<Status, Fail>, found: T) -> Result<(Status, T), Fail> {
    match ended {
        Ok(status) => Ok((status, found)),
        Err(fail) => Err(fail),
    }
}

/// How a run ends where no stream fails, and whether it wrote these octets.
pub(crate) fn runs(
    alloc: Global,
    texts: &[&str],
    octets: &[u8],
    piece: usize,
    disks: &mut Disks,
    written: &[u8],
) -> Result<(Status, bool), Fail>
    requires { 1 ≤ piece }
{
    let mut sink = VecSink::new(alloc, ROOM, &[])?;
    let ended = run_words(alloc, texts, octets, piece, &[], &mut sink, disks);
    let told = with(ended, sink.bytes() == written);
    drop(sink);
    told
}

/// A run of this word ends so, and writes these octets.
fn check(
    rt: &impl Abort,
    alloc: Global,
    text: &str,
    octets: &[u8],
    disks: &mut Disks,
    status: Status,
    written: &[u8],
) -> Result<(), Fail> {
    let told = runs(alloc, &[text], octets, 100, disks, written)?;
    assert_eq!(rt; told, (status, true), "{text}");
    Ok(())
}

#[test]
fn a_store_from_its_making(rt: HostRuntime) -> Result<(), Fail> {
    let mut disks = empty_disks(rt.alloc(), 4096)?;
    let made = from_its_making(&rt, rt.alloc(), &mut disks);
    drop(disks);
    made
}

/// A store is made on disks with nothing in them, and runs.
fn from_its_making(rt: &impl Abort, alloc: Global, disks: &mut Disks) -> Result<(), Fail> {
    let none = Status::NotAStore(Side::A, 0);
    check(rt, alloc, "run", CHECKS.lines, disks, none, &[])?;
    check(rt, alloc, "init", &[], disks, Status::Done, &[])?;
    let made = Status::AlreadyAStore(Side::A);
    check(rt, alloc, "init", &[], disks, made, &[])?;
    check(rt, alloc, "dump", &[], disks, Status::Done, &[])?;
    check(
        rt,
        alloc,
        "run",
        CHECKS.lines,
        disks,
        Status::Done,
        CHECKS.replies,
    )?;
    behind_its_crash(rt, alloc, disks)
}

/// What a crash leaves of it dumps as it was.
fn behind_its_crash(rt: &impl Abort, alloc: Global, before: &Disks) -> Result<(), Fail> {
    let mut disks = behind_crash(alloc, before, Torn::Lost, Torn::Lost)?;
    let dumped = check(
        rt,
        alloc,
        "dump",
        &[],
        &mut disks,
        Status::Done,
        CHECKS.dump_behind(4),
    );
    drop(disks);
    dumped
}

/// How a run over a store with nothing in it ends whose input comes in pieces of so many octets, and
/// whether it wrote the replies.
fn runs_in_pieces(alloc: Global, piece: usize) -> Result<(Status, bool), Fail>
    requires { 1 ≤ piece }
{
    let mut disks = make_disks(alloc, EMPTY, &[], &[])?;
    let told = runs(
        alloc,
        &["run"],
        FIRST_ZONE.lines,
        piece,
        &mut disks,
        FIRST_ZONE.replies,
    );
    drop(disks);
    told
}

/// An input in pieces of so many octets is replied to.
fn check_pieces(rt: &impl Abort, alloc: Global, piece: usize) -> Result<(), Fail>
    requires { 1 ≤ piece }
{
    let told = runs_in_pieces(alloc, piece)?;
    assert_eq!(rt; told, (Status::Done, true), "pieces of {piece}");
    Ok(())
}

#[test]
fn an_input_in_pieces(rt: HostRuntime) -> Result<(), Fail> {
    check_pieces(&rt, rt.alloc(), 1)?;
    check_pieces(&rt, rt.alloc(), 2)?;
    check_pieces(&rt, rt.alloc(), 7)?;
    check_pieces(&rt, rt.alloc(), 4096)
}
