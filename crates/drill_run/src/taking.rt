//! Lines of a drill: each is read, and what it asks for is done and counted.

ghost use Rattle.std.specs.Prelude.{◌≡◌, ◌+◌, ◌^◌, ◌<◌, ◌≤◌, ◌⊎◌, ◌↔◌, IsTrue, Err, Some};
ghost use Rattle.batch_json.specs.declared.asking.Line.TheVariants as line;
ghost use Rattle.command_bounds.specs.Laws.{HasShortLists};
ghost use Rattle.config_model.specs.Laws.{IsBounded};
ghost use Rattle.config_model.specs.declared.refusals.Refusal.TheVariants as refusal;
ghost use Rattle.drill_run.specs.Counting.{Does, IsBelow, OctetsDo, OctetsHalt, OrMemory, Progress};
ghost use Rattle.drill_run.specs.Counting.{HasProgress, Halts, reply_counted};
ghost use Rattle.drill_run.specs.Leaving.{IfOn, IfHalted, IsHalf};
ghost use Rattle.engine_model.specs.Engine.{Engine, ReportSteps};
ghost use Rattle.geo_latency.specs.declared.tables.Tables.{Tables as Rows};
ghost use Rattle.engine_model.specs.declared.answers.Compacted.TheVariants as Compacted;
ghost use Rattle.octets.specs.Counts.{Rose};
ghost use Rattle.r53_core.specs.Holding.{Holds};
ghost use Rattle.r53_core.specs.Stores.{StandsFor};
ghost use Rattle.session_server.specs.Taking.{IsWithin};
ghost use Rattle.zone_journal.specs.Pairs.{BothRead};
ghost use Rattle.zone_journal.specs.Standing.{StandsOn};

use crate::asking::ask;
use crate::counting::{Tally, batches_of, count_command, count_reply, count_report};
use batch_json::{Line, QueryLine};
use check_lines::Observation;
use command_octets::Command;
use config_model::{Made, Refusal, one_outcome};
use dns_wire::Reply;
use geo_latency::Tables;
use r53_core::{Compacted, Reported, Steps, Store};
use r53_disk::Disk;
use std::alloc::Global;
use std::marker::Brand;
use std::sync::ledger::{Blank, Ledger};
use store_model::standing_opens;

/// The most octets of a reply (RULES, A reply that is too long).
const MOST_OCTETS: usize = 4096;

/// What became of a line.
#[derive(Clone, Copy, Debug, PartialEq, Eq)]
pub(crate) enum Went {
    /// It was taken, or memory was wanted for it.
    On,
    /// A disk failed with it.
    Halted,
}

/// Takes the line after n: what it asks for is done and counted.
pub(crate) fn take_line<D: Disk>(
    alloc: Global,
    octets: &[u8],
    n: u32,
    store: &mut Store,
    tables: &Tables,
    reply: &mut Reply,
    tally: &mut Tally,
    a: &mut D,
    b: &mut D,
) -> Went
    requires few { n < 2 ^ 31 }
    requires below { IsBelow n tally.old }
    requires room { reply.old.room ≡ 4096 }
    requires stands { StandsOn D.reading D.images store.old.kept.journal a.old b.old }
    ensures does { (old : Progress) → HasProgress old store.old tally.old
        → IfOn result ((new : Progress) × OrMemory (OctetsDo tables.now octets.now) old new
        × HasProgress new store.new tally.new) }
    ensures half { (old : Progress) → HasProgress old store.old tally.old
        → BothRead D.reading a.old b.old (Holds store.old.kept)
        → IfHalted result (IsHalf D.images a.new b.new (OctetsHalt tables.now octets.now) old) }
    ensures stands { IfOn result
        (StandsOn D.reading D.images store.new.kept.journal a.new b.new) }
    ensures holds { BothRead D.reading a.old b.old (Holds store.old.kept)
        → IfOn result (BothRead D.reading a.new b.new (Holds store.new.kept)) }
    ensures room { reply.new.room ≡ reply.old.room }
    ensures below { IsBelow (n + 1) tally.new }
    ensures a_counts { D.faults a.old ≤ D.faults a.new }
    ensures b_counts { D.faults b.old ≤ D.faults b.new }
    ensures cause { IfHalted result (Rose (D.faults a.old) (D.faults a.new)
        ⊎ Rose (D.faults b.old) (D.faults b.new)) }
{
    match ask(alloc, octets) {
        Ok(asked) => take_asked(alloc, asked, n, store, tables, reply, tally, a, b),
        Err(_) => Went::On,
    }
}

/// Does what a line asks for.
fn take_asked<D: Disk>(
    alloc: Global,
    asked: Line,
    n: u32,
    store: &mut Store,
    tables: &Tables,
    reply: &mut Reply,
    tally: &mut Tally,
    a: &mut D,
    b: &mut D,
) -> Went
    requires within { IsWithin asked }
    requires few { n < 2 ^ 31 }
    requires below { IsBelow n tally.old }
    requires room { reply.old.room ≡ 4096 }
    requires stands { StandsOn D.reading D.images store.old.kept.journal a.old b.old }
    ensures does { (old : Progress) → HasProgress old store.old tally.old
        → IfOn result ((new : Progress) × OrMemory (Does tables.now asked) old new
        × HasProgress new store.new tally.new) }
    ensures half { (old : Progress) → HasProgress old store.old tally.old
        → BothRead D.reading a.old b.old (Holds store.old.kept)
        → IfHalted result (IsHalf D.images a.new b.new (Halts tables.now asked) old) }
    ensures stands { IfOn result
        (StandsOn D.reading D.images store.new.kept.journal a.new b.new) }
    ensures holds { BothRead D.reading a.old b.old (Holds store.old.kept)
        → IfOn result (BothRead D.reading a.new b.new (Holds store.new.kept)) }
    ensures room { reply.new.room ≡ reply.old.room }
    ensures below { IsBelow (n + 1) tally.new }
    ensures a_counts { D.faults a.old ≤ D.faults a.new }
    ensures b_counts { D.faults b.old ≤ D.faults b.new }
    ensures cause { IfHalted result (Rose (D.faults a.old) (D.faults a.new)
        ⊎ Rose (D.faults b.old) (D.faults b.new)) }
{
    match asked {
        Line::Control(command) => take_command(alloc, command, n, store, tally, a, b),
        Line::List(_) => Went::On,
        Line::Status(_) => Went::On,
        Line::Observe(seen) => {
            take_report(seen, n, store, tally);
            Went::On
        }
        Line::Query(packet) => {
            take_query(&packet, n, store, tables, reply, tally);
            Went::On
        }
        Line::Bind(_) => Went::On,
        Line::Serve(_) => Went::On,
        Line::Compact(pieces) => take_pieces(alloc, pieces, store, tally, a, b),
    }
}

/// Takes a command.
fn take_command<D: Disk>(
    alloc: Global,
    command: Command,
    n: u32,
    store: &mut Store,
    tally: &mut Tally,
    a: &mut D,
    b: &mut D,
) -> Went
    requires bounded { IsBounded command }
    requires short { HasShortLists command }
    requires few { n < 2 ^ 31 }
    requires below { IsBelow n tally.old }
    requires stands { StandsOn D.reading D.images store.old.kept.journal a.old b.old }
    ensures does { (tables : Rows) (old : Progress) → HasProgress old store.old tally.old
        → IfOn result ((new : Progress) × OrMemory (Does tables (line.Control command)) old new
        × HasProgress new store.new tally.new) }
    ensures half { (tables : Rows) (old : Progress) → HasProgress old store.old tally.old
        → BothRead D.reading a.old b.old (Holds store.old.kept)
        → IfHalted result (IsHalf D.images a.new b.new (Halts tables (line.Control command)) old) }
    ensures stands { IfOn result
        (StandsOn D.reading D.images store.new.kept.journal a.new b.new) }
    ensures holds { BothRead D.reading a.old b.old (Holds store.old.kept)
        → IfOn result (BothRead D.reading a.new b.new (Holds store.new.kept)) }
    ensures below { IsBelow (n + 1) tally.new }
    ensures a_counts { D.faults a.old ≤ D.faults a.new }
    ensures b_counts { D.faults b.old ≤ D.faults b.new }
    ensures cause { IfHalted result (Rose (D.faults a.old) (D.faults a.new)
        ⊎ Rose (D.faults b.old) (D.faults b.new)) }
{
    one_outcome();
    standing_opens::<D>();
    let batches = batches_of(&command);
    let came = store.command(alloc, a, b, command);
    count_command(batches, &came, n, tally);
    if is_fault(&came) {
        return Went::Halted;
    }
    Went::On
}

/// Whether a disk failed with a command.
fn is_fault(came: &Result<Made, Refusal>) -> bool
    ensures { IsTrue result ↔ (came.now ≡ Err refusal.DiskFault) }
{
    matches!(came, Err(Refusal::DiskFault))
}

/// Makes pieces of a compaction.
fn take_pieces<D: Disk>(
    alloc: Global,
    pieces: u32,
    store: &mut Store,
    tally: &Tally,
    a: &mut D,
    b: &mut D,
) -> Went
    requires some { 1 ≤ pieces }
    requires stands { StandsOn D.reading D.images store.old.kept.journal a.old b.old }
    ensures does { (tables : Rows) (old : Progress) → HasProgress old store.old tally.now
        → IfOn result ((new : Progress) × OrMemory (Does tables (line.Compact pieces)) old new
        × HasProgress new store.new tally.now) }
    ensures half { (tables : Rows) (old : Progress) → HasProgress old store.old tally.now
        → BothRead D.reading a.old b.old (Holds store.old.kept)
        → IfHalted result (IsHalf D.images a.new b.new (Halts tables (line.Compact pieces)) old) }
    ensures stands { IfOn result
        (StandsOn D.reading D.images store.new.kept.journal a.new b.new) }
    ensures holds { BothRead D.reading a.old b.old (Holds store.old.kept)
        → IfOn result (BothRead D.reading a.new b.new (Holds store.new.kept)) }
    ensures a_counts { D.faults a.old ≤ D.faults a.new }
    ensures b_counts { D.faults b.old ≤ D.faults b.new }
    ensures cause { IfHalted result (Rose (D.faults a.old) (D.faults a.new)
        ⊎ Rose (D.faults b.old) (D.faults b.new)) }
{
    let came = store.compact(alloc, a, b, pieces);
    if is_torn(came) {
        return Went::Halted;
    }
    Went::On
}

/// Whether a disk failed with pieces.
fn is_torn(came: Compacted) -> bool
    ensures { IsTrue result ↔ (came ≡ Compacted.DiskFault) }
{
    matches!(came, Compacted::DiskFault)
}

/// Takes what a checker saw.
fn take_report(seen: Observation, n: u32, store: &mut Store, tally: &mut Tally)
    requires few { n < 2 ^ 31 }
    requires below { IsBelow n tally.old }
    ensures does { (tables : Rows) (old : Progress) → HasProgress old store.old tally.old
        → (new : Progress) × Does tables (line.Observe seen) old new
        × HasProgress new store.new tally.new }
    ensures kept { store.new.kept ≡ store.old.kept }
    ensures below { IsBelow (n + 1) tally.new }
{
    let came = take_once(store, seen);
    count_report(came, n, tally);
}

/// What a report comes to. What working it out takes is counted in a ledger that nobody reads.
fn take_once(store: &mut Store, seen: Observation) -> Reported
    ensures reports { (engine : Engine) → StandsFor engine store.old
        → (after : Engine) × ReportSteps engine seen.id seen.checker seen.pass result after
        × StandsFor after store.new }
    ensures kept { store.new.kept ≡ store.old.kept }
{
    take::<Brand>(Blank::new(1), store, seen)
}

/// What a report comes to, with the steps that it takes counted by this ledger.
fn take<L: Ledger>(blank: Blank, store: &mut Store, seen: Observation) -> Reported
    requires name { blank.name ≡ L.name }
    requires parts { blank.parts ≡ L.parts }
    requires some { 0 < blank.parts }
    ensures reports { (engine : Engine) → StandsFor engine store.old
        → (after : Engine) × ReportSteps engine seen.id seen.checker seen.pass result after
        × StandsFor after store.new }
    ensures kept { store.new.kept ≡ store.old.kept }
{
    let mut steps = Steps::<L>::new(blank);
    store.report(seen.id, seen.checker, seen.pass, &mut steps)
}

/// Takes a query. No reply has more than 4,096 octets, which the call that makes it doesn't tell: one with
/// more would be taken as if memory had been wanted for it.
fn take_query(
    asked: &QueryLine,
    n: u32,
    store: &mut Store,
    tables: &Tables,
    reply: &mut Reply,
    tally: &mut Tally,
)
    requires few { n < 2 ^ 31 }
    requires below { IsBelow n tally.old }
    requires room { reply.old.room ≡ 4096 }
    ensures does { (old : Progress) → HasProgress old store.old tally.old
        → (new : Progress) × OrMemory (Does tables.now (line.Query asked.now)) old new
        × HasProgress new store.new tally.new }
    ensures same { store.new ≡ store.old }
    ensures room { reply.new.room ≡ reply.old.room }
    ensures below { IsBelow (n + 1) tally.new }
{
    match store.query(
        tables,
        asked.packet.as_slice(),
        asked.address,
        &asked.words,
        reply,
    ) {
        Some(_) => count_answer(reply.bytes(), n, tally),
        None => {}
    }
}

/// Counts a reply, where it is as long as replies are.
fn count_answer(octets: &[u8], n: u32, tally: &mut Tally)
    requires few { n < 2 ^ 31 }
    requires below { IsBelow n tally.old }
    ensures counted { (tally.new ≡ tally.old)
        ⊎ (tally.new ≡ reply_counted (Some octets.now) tally.old) }
    ensures below { IsBelow (n + 1) tally.new }
{
    if octets.len() > MOST_OCTETS {
        return;
    }
    count_reply(octets, n, tally);
}
