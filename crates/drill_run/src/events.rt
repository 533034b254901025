//! The lines of a drill, one after another.

ghost use Rattle.std.specs.Prelude.{◌≡◌, ◌+◌, ◌*◌, ◌%◌, ◌<◌, ◌≤◌, ◌⊎◌, ◌↔◌, IsTrue};
ghost use Rattle.drill_run.specs.Counting.{IsBelow, OctetsHalt, Progress, HasProgress, MayDo};
ghost use Rattle.drill_run.specs.Counting.{uncounted};
ghost use Rattle.drill_run.specs.Drills.{CompactsBehind, EventLinesRun, SetsUp, no_tables};
ghost use Rattle.drill_run.specs.Leaving.{IfOn, IfHalted, IsHalf, IsHaltedAt, IsHaltedIn, IsHaltedRunning};
ghost use Rattle.engine_model.specs.Engine.{Engine};
ghost use Rattle.octets.specs.Counts.{Rose};
ghost use Rattle.r53_core.specs.Holding.{Holds};
ghost use Rattle.r53_core.specs.Stores.{StandsFor};
ghost use Rattle.r53_gen.specs.Lines.{compaction, event_line, setup_count};
ghost use Rattle.zone_journal.specs.Pairs.{BothRead};
ghost use Rattle.zone_journal.specs.Standing.{StandsOn};

use crate::counting::Tally;
use crate::taking::{Went, take_line};
use dns_wire::Reply;
use geo_latency::Tables;
use octets::front;
use r53_core::Store;
use r53_disk::Disk;
use r53_gen::{SETUP_LINES, compaction_line, event_line, setup_line};
use std::alloc::Global;

/// Behind so many events stands a line that compacts.
const COMPACT_EVERY: u32 = 10_000;

/// Takes the lines of the setup.
pub(crate) fn set_up<D: Disk>(
    alloc: Global,
    store: &mut Store,
    tables: &Tables,
    reply: &mut Reply,
    text: &mut [u8; 16384],
    a: &mut D,
    b: &mut D,
) -> Went
    requires tables { tables.now ≡ no_tables }
    requires room { reply.old.room ≡ 4096 }
    requires stands { StandsOn D.reading D.images store.old.kept.journal a.old b.old }
    ensures does { (start : Engine) → StandsFor start store.old
        → IfOn result ((made : Progress) × SetsUp setup_count (uncounted start) made
        × StandsFor made.engine store.new) }
    ensures half { (start : Engine) → StandsFor start store.old
        → BothRead D.reading a.old b.old (Holds store.old.kept)
        → IfHalted result (IsHaltedIn D.images a.new b.new start) }
    ensures stands { IfOn result
        (StandsOn D.reading D.images store.new.kept.journal a.new b.new) }
    ensures holds { BothRead D.reading a.old b.old (Holds store.old.kept)
        → IfOn result (BothRead D.reading a.new b.new (Holds store.new.kept)) }
    ensures room { reply.new.room ≡ reply.old.room }
    ensures a_counts { D.faults a.old ≤ D.faults a.new }
    ensures b_counts { D.faults b.old ≤ D.faults b.new }
    ensures cause { IfHalted result (Rose (D.faults a.old) (D.faults a.new)
        ⊎ Rose (D.faults b.old) (D.faults b.new)) }
{
    let mut tally = Tally::new();
    for i in 0..SETUP_LINES {
        match take_setup(alloc, i, store, tables, reply, &mut tally, text, a, b) {
            Went::On => {}
            Went::Halted => return Went::Halted,
        }
    }
    Went::On
}

/// Takes a line of the setup.
fn take_setup<D: Disk>(
    alloc: Global,
    i: u32,
    store: &mut Store,
    tables: &Tables,
    reply: &mut Reply,
    tally: &mut Tally,
    text: &mut [u8; 16384],
    a: &mut D,
    b: &mut D,
) -> Went
    requires within { i < setup_count }
    requires below { IsBelow i tally.old }
    requires tables { tables.now ≡ no_tables }
    requires room { reply.old.room ≡ 4096 }
    requires stands { StandsOn D.reading D.images store.old.kept.journal a.old b.old }
    ensures does { (start : Engine) (old : Progress) → SetsUp i (uncounted start) old
        → HasProgress old store.old tally.old
        → IfOn result ((new : Progress) × SetsUp (i + 1) (uncounted start) new
        × HasProgress new store.new tally.new) }
    ensures half { (start : Engine) (old : Progress) → SetsUp i (uncounted start) old
        → HasProgress old store.old tally.old
        → BothRead D.reading a.old b.old (Holds store.old.kept)
        → IfHalted result (IsHaltedIn D.images a.new b.new start) }
    ensures stands { IfOn result
        (StandsOn D.reading D.images store.new.kept.journal a.new b.new) }
    ensures holds { BothRead D.reading a.old b.old (Holds store.old.kept)
        → IfOn result (BothRead D.reading a.new b.new (Holds store.new.kept)) }
    ensures room { reply.new.room ≡ reply.old.room }
    ensures below { IsBelow (i + 1) tally.new }
    ensures a_counts { D.faults a.old ≤ D.faults a.new }
    ensures b_counts { D.faults b.old ≤ D.faults b.new }
    ensures cause { IfHalted result (Rose (D.faults a.old) (D.faults a.new)
        ⊎ Rose (D.faults b.old) (D.faults b.new)) }
{
    let Some(len) = setup_line(i, text) else {
        unreachable!()
    };
    take_line(
        alloc,
        front(text, len),
        i,
        store,
        tables,
        reply,
        tally,
        a,
        b,
    )
}

/// Takes the lines of so many events, each with what stands behind it.
pub(crate) fn run_events<D: Disk>(
    alloc: Global,
    events: u32,
    store: &mut Store,
    tables: &Tables,
    reply: &mut Reply,
    tally: &mut Tally,
    text: &mut [u8; 16384],
    a: &mut D,
    b: &mut D,
) -> Went
    requires few { events ≤ 100000 }
    requires below { IsBelow 0 tally.old }
    requires tables { tables.now ≡ no_tables }
    requires room { reply.old.room ≡ 4096 }
    requires stands { StandsOn D.reading D.images store.old.kept.journal a.old b.old }
    ensures does { (start : Progress) → HasProgress start store.old tally.old
        → IfOn result ((end : Progress) × EventLinesRun events start end
        × HasProgress end store.new tally.new) }
    ensures half { (start : Progress) → HasProgress start store.old tally.old
        → BothRead D.reading a.old b.old (Holds store.old.kept)
        → IfHalted result (IsHaltedRunning D.images a.new b.new events start) }
    ensures stands { IfOn result
        (StandsOn D.reading D.images store.new.kept.journal a.new b.new) }
    ensures holds { BothRead D.reading a.old b.old (Holds store.old.kept)
        → IfOn result (BothRead D.reading a.new b.new (Holds store.new.kept)) }
    ensures room { reply.new.room ≡ reply.old.room }
    ensures a_counts { D.faults a.old ≤ D.faults a.new }
    ensures b_counts { D.faults b.old ≤ D.faults b.new }
    ensures cause { IfHalted result (Rose (D.faults a.old) (D.faults a.new)
        ⊎ Rose (D.faults b.old) (D.faults b.new)) }
{
    for k in 0..events {
        match take_event(alloc, k, store, tables, reply, tally, text, a, b) {
            Went::On => {}
            Went::Halted => return Went::Halted,
        }
    }
    Went::On
}

/// Takes the line of an event, with what stands behind it.
fn take_event<D: Disk>(
    alloc: Global,
    k: u32,
    store: &mut Store,
    tables: &Tables,
    reply: &mut Reply,
    tally: &mut Tally,
    text: &mut [u8; 16384],
    a: &mut D,
    b: &mut D,
) -> Went
    requires few { k < 100000 }
    requires below { IsBelow (2 * k) tally.old }
    requires tables { tables.now ≡ no_tables }
    requires room { reply.old.room ≡ 4096 }
    requires stands { StandsOn D.reading D.images store.old.kept.journal a.old b.old }
    ensures does { (start old : Progress) → EventLinesRun k start old → HasProgress old store.old tally.old
        → IfOn result ((new : Progress) × EventLinesRun (k + 1) start new
        × HasProgress new store.new tally.new) }
    ensures half { (start old : Progress) → EventLinesRun k start old → HasProgress old store.old tally.old
        → BothRead D.reading a.old b.old (Holds store.old.kept)
        → IfHalted result (IsHaltedAt D.images a.new b.new k start) }
    ensures stands { IfOn result
        (StandsOn D.reading D.images store.new.kept.journal a.new b.new) }
    ensures holds { BothRead D.reading a.old b.old (Holds store.old.kept)
        → IfOn result (BothRead D.reading a.new b.new (Holds store.new.kept)) }
    ensures room { reply.new.room ≡ reply.old.room }
    ensures below { IsBelow (2 * (k + 1)) tally.new }
    ensures a_counts { D.faults a.old ≤ D.faults a.new }
    ensures b_counts { D.faults b.old ≤ D.faults b.new }
    ensures cause { IfHalted result (Rose (D.faults a.old) (D.faults a.new)
        ⊎ Rose (D.faults b.old) (D.faults b.new)) }
{
    match take_line_of(alloc, k, store, tables, reply, tally, text, a, b) {
        Went::On => take_behind(alloc, k, store, tables, reply, tally, text, a, b),
        Went::Halted => Went::Halted,
    }
}

/// Takes the line of an event.
fn take_line_of<D: Disk>(
    alloc: Global,
    k: u32,
    store: &mut Store,
    tables: &Tables,
    reply: &mut Reply,
    tally: &mut Tally,
    text: &mut [u8; 16384],
    a: &mut D,
    b: &mut D,
) -> Went
    requires few { k < 100000 }
    requires below { IsBelow (2 * k) tally.old }
    requires tables { tables.now ≡ no_tables }
    requires room { reply.old.room ≡ 4096 }
    requires stands { StandsOn D.reading D.images store.old.kept.journal a.old b.old }
    ensures does { (old : Progress) → HasProgress old store.old tally.old
        → IfOn result ((new : Progress) × MayDo no_tables (event_line k) old new
        × HasProgress new store.new tally.new) }
    ensures half { (old : Progress) → HasProgress old store.old tally.old
        → BothRead D.reading a.old b.old (Holds store.old.kept)
        → IfHalted result (IsHalf D.images a.new b.new (OctetsHalt no_tables (event_line k)) old) }
    ensures stands { IfOn result
        (StandsOn D.reading D.images store.new.kept.journal a.new b.new) }
    ensures holds { BothRead D.reading a.old b.old (Holds store.old.kept)
        → IfOn result (BothRead D.reading a.new b.new (Holds store.new.kept)) }
    ensures room { reply.new.room ≡ reply.old.room }
    ensures below { IsBelow (2 * k + 1) tally.new }
    ensures a_counts { D.faults a.old ≤ D.faults a.new }
    ensures b_counts { D.faults b.old ≤ D.faults b.new }
    ensures cause { IfHalted result (Rose (D.faults a.old) (D.faults a.new)
        ⊎ Rose (D.faults b.old) (D.faults b.new)) }
{
    let len = event_line(k, text);
    take_line(
        alloc,
        front(text, len),
        2 * k,
        store,
        tables,
        reply,
        tally,
        a,
        b,
    )
}

/// Takes what stands behind an event, where something does.
fn take_behind<D: Disk>(
    alloc: Global,
    k: u32,
    store: &mut Store,
    tables: &Tables,
    reply: &mut Reply,
    tally: &mut Tally,
    text: &mut [u8; 16384],
    a: &mut D,
    b: &mut D,
) -> Went
    requires few { k < 100000 }
    requires below { IsBelow (2 * k + 1) tally.old }
    requires tables { tables.now ≡ no_tables }
    requires room { reply.old.room ≡ 4096 }
    requires stands { StandsOn D.reading D.images store.old.kept.journal a.old b.old }
    ensures does { (old : Progress) → HasProgress old store.old tally.old
        → IfOn result ((new : Progress) × CompactsBehind k old new
        × HasProgress new store.new tally.new) }
    ensures half { (old : Progress) → HasProgress old store.old tally.old
        → BothRead D.reading a.old b.old (Holds store.old.kept)
        → IfHalted result ((k % 10000 ≡ 9999)
        × IsHalf D.images a.new b.new (OctetsHalt no_tables compaction) old) }
    ensures stands { IfOn result
        (StandsOn D.reading D.images store.new.kept.journal a.new b.new) }
    ensures holds { BothRead D.reading a.old b.old (Holds store.old.kept)
        → IfOn result (BothRead D.reading a.new b.new (Holds store.new.kept)) }
    ensures room { reply.new.room ≡ reply.old.room }
    ensures below { IsBelow (2 * (k + 1)) tally.new }
    ensures a_counts { D.faults a.old ≤ D.faults a.new }
    ensures b_counts { D.faults b.old ≤ D.faults b.new }
    ensures cause { IfHalted result (Rose (D.faults a.old) (D.faults a.new)
        ⊎ Rose (D.faults b.old) (D.faults b.new)) }
{
    if is_compacted(k) {
        let len = compaction_line(text);
        return take_line(
            alloc,
            front(text, len),
            2 * k + 1,
            store,
            tables,
            reply,
            tally,
            a,
            b,
        );
    }
    Went::On
}

/// Whether a line that compacts stands behind an event.
fn is_compacted(k: u32) -> bool
    ensures { IsTrue result ↔ (k % 10000 ≡ 9999) }
{
    k % COMPACT_EVERY == COMPACT_EVERY - 1
}
