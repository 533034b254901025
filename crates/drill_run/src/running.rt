//! A drill from the making of its store to its summary.

ghost use Rattle.std.specs.Prelude.{◌≡◌, ◌≤◌, ◌⊎◌, ℕ, List, IfOk, Some, vec_capacity};
ghost use Rattle.config_model.specs.Configs.{empty};
ghost use Rattle.drill_run.specs.Counting.{Progress, HasProgress, no_counts};
ghost use Rattle.drill_run.specs.Drills.{LinesRun, no_tables, summary};
ghost use Rattle.drill_run.specs.Leaving.{DrillLeaves, HasCause, IfOn, IfHalted};
ghost use Rattle.drill_run.specs.Leaving.{IfUnwritten, IsHalted, LinesLeave, OverLeaves};
ghost use Rattle.drill_run.specs.Leaving.{TellsOutput, drilled_of, unopened};
ghost use Rattle.engine_model.specs.Engine.{Engine};
ghost use Rattle.octets.specs.Counts.{Rose};
ghost use Rattle.r53_core.specs.Holding.{Holds};
ghost use Rattle.r53_core.specs.Stores.{StandsFor};
ghost use Rattle.session_server.specs.Files.{FilesOpen};
ghost use Rattle.whole_writing.specs.declared.output.Output.{Output};
ghost use Rattle.zone_journal.specs.Pairs.{BothRead};
ghost use Rattle.zone_journal.specs.Standing.{StandsOn};

use crate::answers::Drilled;
use crate::counting::Tally;
use crate::events::{run_events, set_up};
use crate::health::count_healthy;
use crate::summing::{ROOM, write_summary};
use crate::taking::Went;
use dns_wire::Reply;
use geo_latency::Tables;
use octets::OutOfMemory;
use r53_core::Store;
use r53_disk::Disk;
use r53_io::Sink;
use std::alloc::Global;
use store_model::{
    init_opens, no_store_or_config, pair_opens_to_one_config, standing_opens, standing_place,
    standing_shapes,
};
use whole_writing::{Output, write_whole};
use zone_journal::{Init, OpenFault, init};

/// The octets of the reply to a packet (RULES, A reply that is too long).
const REPLY_ROOM: usize = 4096;

/// Makes a store on two disks, runs the lines of a drill over so many events, 100,000 at most, and writes
/// its summary.
pub fn drill<D: Disk, K: Sink>(
    alloc: Global,
    events: u32,
    out: &mut K,
    a: &mut D,
    b: &mut D,
) -> Drilled
    requires few { events ≤ 100000 }

    // What is written, and what the files open to, by the answer.
    ensures leaves { (x y : List ℕ) → D.reading a.old ≡ Some x → D.reading b.old ≡ Some y
        → DrillLeaves result D.reading D.images D.moment D.images_since a.old a.new b.old b.new
        events x y (K.held out.old) (K.held out.new) }

    // The sink is asked for nothing but the summary.
    ensures unwritten { IfUnwritten result (out.new ≡ out.old) }

    // A fault comes only where the count of what failed rose.
    ensures a_counts { D.faults a.old ≤ D.faults a.new }
    ensures b_counts { D.faults b.old ≤ D.faults b.new }
    ensures out_counts { K.faults out.old ≤ K.faults out.new }
    ensures cause { HasCause result (D.faults a.old) (D.faults a.new) (D.faults b.old)
        (D.faults b.new) (K.faults out.old) (K.faults out.new) }
{
    init_opens::<D>();
    match init(a, b) {
        Init::Done => drill_over(alloc, events, out, a, b),
        Init::AlreadyAStore(side) => Drilled::AlreadyAStore(side),
        Init::DiskFault => Drilled::MakingFault,
    }
}

/// The same over files that were just made.
fn drill_over<D: Disk, K: Sink>(
    alloc: Global,
    events: u32,
    out: &mut K,
    a: &mut D,
    b: &mut D,
) -> Drilled
    requires few { events ≤ 100000 }
    ensures leaves { (x y : List ℕ) → D.reading a.old ≡ Some x → D.reading b.old ≡ Some y
        → FilesOpen D.images a.old b.old empty
        → OverLeaves result D.images a.new b.new events x y (K.held out.old) (K.held out.new) }
    ensures unwritten { IfUnwritten result (out.new ≡ out.old) }
    ensures a_counts { D.faults a.old ≤ D.faults a.new }
    ensures b_counts { D.faults b.old ≤ D.faults b.new }
    ensures out_counts { K.faults out.old ≤ K.faults out.new }
    ensures cause { HasCause result (D.faults a.old) (D.faults a.new) (D.faults b.old)
        (D.faults b.new) (K.faults out.old) (K.faults out.new) }
{
    match take_room(alloc) {
        Ok(mut room) => {
            let drilled = drill_with(alloc, events, &mut room, out, a, b);
            drop(room);
            drilled
        }
        Err(_) => Drilled::OutOfMemory,
    }
}

/// The same in this room.
fn drill_with<D: Disk, K: Sink>(
    alloc: Global,
    events: u32,
    room: &mut Room,
    out: &mut K,
    a: &mut D,
    b: &mut D,
) -> Drilled
    requires few { events ≤ 100000 }
    requires tables { room.old.tables ≡ no_tables }
    requires reply { room.old.reply.room ≡ 4096 }
    requires summary { ROOM ≤ vec_capacity room.old.summary }
    ensures leaves { (x y : List ℕ) → D.reading a.old ≡ Some x → D.reading b.old ≡ Some y
        → FilesOpen D.images a.old b.old empty
        → OverLeaves result D.images a.new b.new events x y (K.held out.old) (K.held out.new) }
    ensures unwritten { IfUnwritten result (out.new ≡ out.old) }
    ensures a_counts { D.faults a.old ≤ D.faults a.new }
    ensures b_counts { D.faults b.old ≤ D.faults b.new }
    ensures out_counts { K.faults out.old ≤ K.faults out.new }
    ensures cause { HasCause result (D.faults a.old) (D.faults a.new) (D.faults b.old)
        (D.faults b.new) (K.faults out.old) (K.faults out.new) }
{
    no_store_or_config();
    pair_opens_to_one_config();
    standing_place::<D>();
    match Store::open(alloc, a, b) {
        Ok(mut store) => {
            let drilled = drill_in(alloc, events, &mut store, room, out, a, b);
            drop(store);
            drilled
        }
        Err(fault) => unopened(fault),
    }
}

/// The answer where the store isn't opened.
fn unopened(fault: OpenFault) -> Drilled
    ensures { result ≡ unopened fault }
{
    match fault {
        OpenFault::NotAStore(side, place) => Drilled::NotAStore(side, place),
        OpenFault::DiskFault => Drilled::OpeningFault,
        OpenFault::OutOfMemory => Drilled::OutOfMemory,
    }
}

/// What a drill works with, beside its store.
#[derive(Drop)]
struct Room {
    tables: Tables,
    reply: Reply,
    summary: Vec<u8>,
}

/// All memory of a drill is taken here, but for what reading a line, a command and the beginning of a
/// compaction take.
fn take_room(alloc: Global) -> Result<Room, OutOfMemory>
    ensures tables { IfOk result (λ room. room.tables ≡ no_tables) }
    ensures reply { IfOk result (λ room. room.reply.room ≡ 4096) }
    ensures summary { IfOk result (λ room. ROOM ≤ vec_capacity room.summary) }
{
    let reply = Reply::new(alloc, REPLY_ROOM)?;
    let Ok(summary) = Vec::with_capacity(alloc, ROOM) else {
        drop(reply);
        return Err(OutOfMemory);
    };
    Ok(Room {
        tables: Tables::new(alloc),
        reply,
        summary,
    })
}

/// Runs the lines of a drill over a store, and writes its summary.
fn drill_in<D: Disk, K: Sink>(
    alloc: Global,
    events: u32,
    store: &mut Store,
    room: &mut Room,
    out: &mut K,
    a: &mut D,
    b: &mut D,
) -> Drilled
    requires few { events ≤ 100000 }
    requires tables { room.old.tables ≡ no_tables }
    requires reply { room.old.reply.room ≡ 4096 }
    requires summary { ROOM ≤ vec_capacity room.old.summary }
    requires stands { StandsOn D.reading D.images store.old.kept.journal a.old b.old }
    ensures leaves { (start : Engine) → StandsFor start store.old
        → BothRead D.reading a.old b.old (Holds store.old.kept)
        → LinesLeave result D.images a.new b.new events start (K.held out.old) (K.held out.new) }
    ensures unwritten { IfUnwritten result (out.new ≡ out.old) }
    ensures a_counts { D.faults a.old ≤ D.faults a.new }
    ensures b_counts { D.faults b.old ≤ D.faults b.new }
    ensures out_counts { K.faults out.old ≤ K.faults out.new }
    ensures cause { HasCause result (D.faults a.old) (D.faults a.new) (D.faults b.old)
        (D.faults b.new) (K.faults out.old) (K.faults out.new) }
{
    standing_opens::<D>();
    standing_shapes::<D>();
    let mut tally = Tally::new();
    match run_lines(
        alloc,
        events,
        store,
        &room.tables,
        &mut room.reply,
        &mut tally,
        a,
        b,
    ) {
        Went::On => sum_up(events, store, &tally, &mut room.summary, out),
        Went::Halted => Drilled::DiskFault,
    }
}

/// Runs the lines of a drill: the setup, and then the events.
fn run_lines<D: Disk>(
    alloc: Global,
    events: u32,
    store: &mut Store,
    tables: &Tables,
    reply: &mut Reply,
    tally: &mut Tally,
    a: &mut D,
    b: &mut D,
) -> Went
    requires few { events ≤ 100000 }
    requires none { tally.old ≡ no_counts }
    requires tables { tables.now ≡ no_tables }
    requires room { reply.old.room ≡ 4096 }
    requires stands { StandsOn D.reading D.images store.old.kept.journal a.old b.old }
    ensures does { (start : Engine) → StandsFor start store.old
        → IfOn result ((end : Progress) × LinesRun events start end
        × HasProgress end store.new tally.new) }
    ensures half { (start : Engine) → StandsFor start store.old
        → BothRead D.reading a.old b.old (Holds store.old.kept)
        → IfHalted result (IsHalted D.images a.new b.new events start) }
    ensures stands { IfOn result
        (StandsOn D.reading D.images store.new.kept.journal a.new b.new) }
    ensures holds { BothRead D.reading a.old b.old (Holds store.old.kept)
        → IfOn result (BothRead D.reading a.new b.new (Holds store.new.kept)) }
    ensures a_counts { D.faults a.old ≤ D.faults a.new }
    ensures b_counts { D.faults b.old ≤ D.faults b.new }
    ensures cause { IfHalted result (Rose (D.faults a.old) (D.faults a.new)
        ⊎ Rose (D.faults b.old) (D.faults b.new)) }
{
    let mut text = [0; 16384];
    match set_up(alloc, store, tables, reply, &mut text, a, b) {
        Went::On => run_events(alloc, events, store, tables, reply, tally, &mut text, a, b),
        Went::Halted => Went::Halted,
    }
}

/// Writes the summary of a drill.
fn sum_up<K: Sink>(
    events: u32,
    store: &Store,
    tally: &Tally,
    text: &mut Vec<u8>,
    out: &mut K,
) -> Drilled
    requires room { ROOM ≤ vec_capacity text.old }
    ensures writes { (end : Progress) → HasProgress end store.now tally.now
        → (written : Output) × (result ≡ drilled_of written)
        × TellsOutput (K.held out.old) (K.held out.new) written (summary events end) }
    ensures told { (written : Output) × (result ≡ drilled_of written) }
    ensures counts { K.faults out.old ≤ K.faults out.new }
    ensures cause { HasCause result 0 0 0 0 (K.faults out.old) (K.faults out.new) }
{
    write_summary(events, count_healthy(store), tally, text);
    drilled_of(write_whole(out, text.as_slice()))
}

/// How a drill ended with its summary.
fn drilled_of(written: Output) -> Drilled
    ensures { result ≡ drilled_of written }
{
    match written {
        Output::Whole => Drilled::Written,
        Output::Failed => Drilled::WriteFault,
    }
}
