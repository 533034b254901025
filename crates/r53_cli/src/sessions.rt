//! Runs over a store: it is made, the lines of an input are taken, or what it holds is written.

ghost use Rattle.std.specs.Prelude.{◌≡◌, ◌≢◌, ◌≤◌};
ghost use Rattle.r53_cli.specs.Sessions.{Drills, Dumps, InitRuns, Runs, of_drilled};
ghost use Rattle.r53_cli.specs.Sessions.{of_dumped, of_ended, of_init, of_ran};
ghost use Rattle.r53_cli.specs.declared.status.Status.TheVariants as Status;

use crate::status::Status;
use drill_run::{Drilled, drill};
use dump_run::{Dumped, dump_store, init_opens};
use r53_disk::Disk;
use r53_io::{Link, Sink, Source};
use rand_core::Rng;
use session_run::{Ended, Ran, run_session};
use std::alloc::Global;
use zone_journal::{Init, init};

/// Makes a store with nothing in it.
pub(crate) fn run_init<D: Disk>(a: &mut D, b: &mut D) -> Status
    ensures makes { InitRuns D.reading D.images D.moment D.images_since result a.old a.new b.old b.new
        (D.faults a.old) (D.faults a.new) (D.faults b.old) (D.faults b.new) }
    ensures built { result ≢ Status.Usage }
{
    init_opens::<D>();
    of_init(init(a, b))
}

/// The status of a making.
fn of_init(came: Init) -> Status
    ensures { result ≡ of_init came }
{
    match came {
        Init::Done => Status::Done,
        Init::AlreadyAStore(side) => Status::AlreadyAStore(side),
        Init::DiskFault => Status::DiskFault,
    }
}

/// Writes what a store holds.
pub(crate) fn run_dump<K: Sink, D: Disk>(alloc: Global, out: &mut K, a: &mut D, b: &mut D) -> Status
    ensures dumps { Dumps D.reading D.images D.moment D.images_since result a.old a.new b.old b.new
        (K.held out.old) (K.held out.new) (K.faults out.old) (K.faults out.new) (D.faults a.old)
        (D.faults a.new) (D.faults b.old) (D.faults b.new) }
    ensures built { result ≢ Status.Usage }
{
    of_dumped(dump_store(alloc, out, a, b))
}

/// The status of a dump.
fn of_dumped(came: Dumped) -> Status
    ensures told { result ≡ of_dumped came }
    ensures built { result ≢ Status.Usage }
{
    match came {
        Dumped::Written => Status::Done,
        Dumped::NotAStore(side, place) => Status::NotAStore(side, place),
        Dumped::OpeningFault => Status::DiskFault,
        Dumped::OutOfMemory => Status::OutOfMemory,
        Dumped::WriteFault => Status::WriteFault,
    }
}

/// Runs a drill over so many events.
pub(crate) fn run_drill<K: Sink, D: Disk>(
    alloc: Global,
    events: u32,
    out: &mut K,
    a: &mut D,
    b: &mut D,
) -> Status
    requires few { events ≤ 100000 }
    ensures drills { Drills D.reading D.images D.moment D.images_since events result a.old a.new
        b.old b.new (K.held out.old) (K.held out.new) (K.faults out.old) (K.faults out.new)
        (D.faults a.old) (D.faults a.new) (D.faults b.old) (D.faults b.new) }
    ensures built { result ≢ Status.Usage }
{
    of_drilled(drill(alloc, events, out, a, b))
}

/// The status of a drill.
fn of_drilled(came: Drilled) -> Status
    ensures told { result ≡ of_drilled came }
    ensures built { result ≢ Status.Usage }
{
    match came {
        Drilled::Written => Status::Done,
        Drilled::AlreadyAStore(side) => Status::AlreadyAStore(side),
        Drilled::MakingFault => Status::DiskFault,
        Drilled::NotAStore(side, place) => Status::NotAStore(side, place),
        Drilled::OpeningFault => Status::DiskFault,
        Drilled::OutOfMemory => Status::OutOfMemory,
        Drilled::DiskFault => Status::DiskFault,
        Drilled::WriteFault => Status::WriteFault,
    }
}

/// Runs a session.
pub(crate) fn run_lines<S: Source, T: Source, K: Sink, D: Disk, L: Link, R: Rng>(
    alloc: Global,
    input: &mut S,
    tables: &mut T,
    out: &mut K,
    a: &mut D,
    b: &mut D,
    link: &mut L,
    words: &mut R,
) -> Status
    ensures runs { Runs D.reading D.images D.moment D.images_since result a.old a.new b.old b.new
        (record {
          left = S.left input.old;
          rows = T.left tables.old;
          held = K.held out.old;
          ports = L.ports link.old;
          coming = L.coming link.old;
          sent = L.sent link.old;
          words = R.stream words.old;
        })
        (record {
          left = S.left input.new;
          rows = T.left tables.new;
          held = K.held out.new;
          ports = L.ports link.new;
          coming = L.coming link.new;
          sent = L.sent link.new;
          words = R.stream words.new;
        })
        (record {
          input = S.faults input.old;
          tables = T.faults tables.old;
          out = K.faults out.old;
          a = D.faults a.old;
          b = D.faults b.old;
          link = L.faults link.old;
        })
        (record {
          input = S.faults input.new;
          tables = T.faults tables.new;
          out = K.faults out.new;
          a = D.faults a.new;
          b = D.faults b.new;
          link = L.faults link.new;
        }) }
{
    of_ran(run_session(alloc, input, tables, out, a, b, link, words))
}

/// The status of a session.
fn of_ran(ran: Ran) -> Status
    ensures { result ≡ of_ran ran }
{
    match ran {
        Ran::BadTables(line) => Status::BadTables(line),
        Ran::TablesFault => Status::ReadFault,
        Ran::TablesTooLong => Status::InputTooLong,
        Ran::NotAStore(side, place) => Status::NotAStore(side, place),
        Ran::OpeningFault => Status::DiskFault,
        Ran::OutOfMemory => Status::OutOfMemory,
        Ran::Ended(ended) => of_ended(ended),
    }
}

/// The status of lines that ended.
fn of_ended(ended: Ended) -> Status
    ensures { result ≡ of_ended ended }
{
    match ended {
        Ended::Done => Status::Done,
        Ended::ReadFault => Status::ReadFault,
        Ended::InputTooLong => Status::InputTooLong,
        Ended::WriteFault => Status::WriteFault,
        Ended::DiskFault => Status::DiskFault,
        Ended::LinkFault => Status::LinkFault,
    }
}
