//! A run over objects in memory.

ghost use Rattle.std.specs.Bool.{OnTrue};
ghost use Rattle.std.specs.List.{All};
ghost use Rattle.r53_io.specs.Script.{FitsDatagram};

use crate::script::Script;
use crate::stop::Stop;
use crate::words::ScriptWords;
use octets::{OutOfMemory, append};
use r53_disk::{MemoryDisk, Torn};
use r53_io::{ListSource, ScriptLink, Scripted, VecSink};
use session_run::{Ran, run_session};
use std::alloc::Global;
use std::mem::replace;
use zone_journal::{Init, init};

/// The room of a disk, and the most octets of a file that a scenario gives.
const ROOM: u64 = 268_435_456;

/// The room for what is written in a run.
const MOST_WRITTEN: usize = 1_048_576;

/// The two files of a store.
#[derive(Drop)]
pub struct Files {
    pub a: MemoryDisk,
    pub b: MemoryDisk,
}

/// What a run came to, and what it wrote and sent.
#[derive(Drop)]
pub struct Came {
    pub ran: Ran,
    pub out: VecSink,
    pub link: ScriptLink,
}

/// The files of a new store.
pub fn new_files(alloc: Global) -> Result<Files, Stop> {
    let mut a = MemoryDisk::new(alloc, &[], ROOM, &[])?;
    let mut b = MemoryDisk::new(alloc, &[], ROOM, &[])?;
    match init(&mut a, &mut b) {
        Init::Done => Ok(Files { a, b }),
        _ => Err(Stop::NoStore),
    }
}

/// The file that a run begins with: what is given, or what a crash left of the file before.
fn file_of(
    alloc: Global,
    before: &MemoryDisk,
    torn: Torn,
    holds: &Option<Vec<u8>>,
    fails: &[u64],
) -> Result<MemoryDisk, Stop> {
    let octets = match holds {
        Some(octets) => copy_of(alloc, octets)?,
        None => before.image(torn)?,
    };
    if octets.len() as u64 > ROOM {
        return Err(Stop::TooMuch);
    }
    Ok(MemoryDisk::new(alloc, &octets, ROOM, fails)?)
}

/// The same octets.
fn copy_of(alloc: Global, octets: &[u8]) -> Result<Vec<u8>, OutOfMemory> {
    let mut copy = Vec::new(alloc);
    append(octets, &mut copy)?;
    Ok(copy)
}

/// Both files that a run begins with.
pub fn files_of(alloc: Global, before: &Files, script: &Script) -> Result<Files, Stop> {
    let setting = &script.setting;
    let a = file_of(
        alloc,
        &before.a,
        setting.torn,
        &setting.a_holds,
        &setting.a_fails,
    )?;
    let b = file_of(
        alloc,
        &before.b,
        setting.torn,
        &setting.b_holds,
        &setting.b_fails,
    )?;
    Ok(Files { a, b })
}

/// Whether each datagram has at most 65,535 octets.
fn all_fit(arrivals: &[Scripted]) -> bool
    ensures { OnTrue result (All FitsDatagram arrivals.now) }
{
    for arrival in arrivals {
        if !fits(arrival) {
            return false;
        }
    }
    true
}

/// Whether a datagram has at most 65,535 octets.
fn fits(arrival: &Scripted) -> bool
    ensures { OnTrue result (FitsDatagram arrival.now) }
{
    match arrival {
        Scripted::Dns(_, octets) => octets.len() <= 65_535,
        Scripted::Report(octets) => octets.len() <= 65_535,
        Scripted::Quiet => true,
    }
}

/// The link to which the arrivals of a script come.
fn link_of(alloc: Global, arrivals: Vec<Scripted>, fails: &[u64]) -> Result<ScriptLink, Stop> {
    if !all_fit(&arrivals) {
        drop(arrivals);
        return Err(Stop::TooMuch);
    }
    Ok(ScriptLink::new(alloc, arrivals, fails)?)
}

/// What a run works with, beside the files.
#[derive(Drop)]
struct Streams {
    input: ListSource,
    tables: ListSource,
    words: ScriptWords,
}

/// The input of a script, its tables and its random words, which are taken from it.
fn streams_of(alloc: Global, script: &mut Script) -> Result<Streams, Stop> {
    let piece = script.setting.piece.max(1) as usize;
    let input = ListSource::new(alloc, &script.input, piece, &script.setting.input_fails)?;
    let fails = &script.setting.tables_fail;
    match ListSource::new(alloc, &script.tables, piece, fails) {
        Ok(tables) => {
            let words = ScriptWords::new(replace(&mut script.words, Vec::new(alloc)));
            Ok(Streams {
                input,
                tables,
                words,
            })
        }
        Err(fault) => {
            drop(input);
            Err(Stop::from(fault))
        }
    }
}

/// Runs a script on files. Its arrivals and its random words are taken from it.
pub fn run(alloc: Global, script: &mut Script, files: &mut Files) -> Result<Came, Stop> {
    let mut streams = streams_of(alloc, script)?;
    let came = run_over(alloc, script, &mut streams, files);
    drop(streams);
    came
}

/// The same with these streams.
fn run_over(
    alloc: Global,
    script: &mut Script,
    streams: &mut Streams,
    files: &mut Files,
) -> Result<Came, Stop> {
    let arrivals = replace(&mut script.arrivals, Vec::new(alloc));
    let mut link = link_of(alloc, arrivals, &script.setting.network_fails)?;
    let mut out = match VecSink::new(alloc, MOST_WRITTEN, &script.setting.output_fails) {
        Ok(out) => out,
        Err(fault) => {
            drop(link);
            return Err(Stop::from(fault));
        }
    };
    let ran = run_session(
        alloc,
        &mut streams.input,
        &mut streams.tables,
        &mut out,
        &mut files.a,
        &mut files.b,
        &mut link,
        &mut streams.words,
    );
    Ok(Came { ran, out, link })
}
