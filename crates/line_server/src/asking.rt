//! Lines that ask for a status, tell what a checker saw, or ask for the reply to a packet.

ghost use Rattle.std.specs.Prelude.{◌≡◌, ◌≤◌, ◌<◌, ℕ, List, Some, length, vec_capacity};
ghost use Rattle.serve_turns.specs.Engine.{Engine, ReportSteps};
ghost use Rattle.line_server.specs.Leaving.{HasCause, Replies};
ghost use Rattle.line_server.specs.Replying.{Answered, Observed, StatusTold};
ghost use Rattle.serve_turns.specs.Stores.{StandsFor};
ghost use Rattle.octets.specs.Counts.{Rose};
ghost use Rattle.serve_turns.specs.Replies.{query_text, report_outcome, status_outcome};
ghost use Rattle.whole_writing.specs.Output.{OutputOf};

use crate::answers::Taken;
use crate::sending::sent;
use check_lines::Observation;
use dns_wire::Reply;
use geo_latency::Tables;
use line_faults::Member;
use query_lines::QueryLine;
use r53_io::Sink;
use reply_sending::{Outcome, Output, ROOM, Refusal, send_answer, send_outcome, send_silence};
use serve_turns::{Reported, Steps, Store};
use std::marker::Brand;
use std::sync::ledger::{Blank, Ledger};

/// The most octets of a reply (RULES, A reply that is too long).
const MOST_OCTETS: usize = 4096;

/// Writes the status of a check.
pub fn status<K: Sink>(store: &Store, id: u32, text: &mut Vec<u8>, out: &mut K) -> Taken
    requires room { ROOM ≤ vec_capacity text.old }
    ensures leaves { (engine : Engine) (held : List ℕ) → StandsFor engine store.now
        → K.held out.old ≡ Some held
        → Replies result (StatusTold id) engine (λ after. StandsFor after store.now) held
        (K.held out.new) }
    ensures room { vec_capacity text.old ≤ vec_capacity text.new }
    ensures out_counts { K.faults out.old ≤ K.faults out.new }
    ensures cause { HasCause result 0 0 0 0 0 0 (K.faults out.old) (K.faults out.new) }
{
    let told = status_of(id, store.check_status(id));
    sent(send_outcome(&told, text, out))
}

/// A status, or that there is no such check.
fn status_of(id: u32, told: Option<(bool, u16)>) -> Outcome
    ensures { result ≡ status_outcome id told }
{
    match told {
        Some((healthy, passing)) => Outcome::Status { healthy, passing },
        None => Outcome::Refused(Refusal::NoSuchHealthCheck(id)),
    }
}

/// Takes what a checker saw, and writes the reply.
pub fn observe<K: Sink>(
    store: &mut Store,
    seen: Observation,
    text: &mut Vec<u8>,
    out: &mut K,
) -> Taken
    requires room { ROOM ≤ vec_capacity text.old }
    ensures leaves { (engine : Engine) (held : List ℕ) → StandsFor engine store.old
        → K.held out.old ≡ Some held
        → Replies result (Observed seen) engine (λ after. StandsFor after store.new) held
        (K.held out.new) }
    ensures reports { (engine : Engine) → StandsFor engine store.old
        → (after : Engine) × (reply : List ℕ) × Observed seen engine after reply
        × StandsFor after store.new }
    ensures kept { store.new.kept ≡ store.old.kept }
    ensures room { vec_capacity text.old ≤ vec_capacity text.new }
    ensures out_counts { K.faults out.old ≤ K.faults out.new }
    ensures cause { HasCause result 0 0 0 0 0 0 (K.faults out.old) (K.faults out.new) }
{
    let came = take_once(store, seen);
    sent(send_outcome(&report_of(seen.id, came), text, out))
}

/// What a report came to.
fn report_of(id: u32, came: Reported) -> Outcome
    ensures { result ≡ report_outcome id came }
{
    match came {
        Reported::Taken => Outcome::Done(Member::Observe),
        Reported::NoSuchHealthCheck => Outcome::Refused(Refusal::NoSuchHealthCheck(id)),
        Reported::BadChecker => Outcome::BadChecker,
    }
}

/// Takes a report.
fn take_once(store: &mut Store, seen: Observation) -> Reported
    ensures reports { (engine : Engine) → StandsFor engine store.old
        → (after : Engine) × ReportSteps engine seen.id seen.checker seen.pass result after
        × StandsFor after store.new }
    ensures kept { store.new.kept ≡ store.old.kept }
{
    take::<Brand>(Blank::new(1), store, seen)
}

/// The same, counted in a ledger of its own.
fn take<L: Ledger>(blank: Blank, store: &mut Store, seen: Observation) -> Reported
    requires name { blank.name ≡ L.name }
    requires parts { blank.parts ≡ L.parts }
    requires some { 0 < blank.parts }
    ensures reports { (engine : Engine) → StandsFor engine store.old
        → (after : Engine) × ReportSteps engine seen.id seen.checker seen.pass result after
        × StandsFor after store.new }
    ensures kept { store.new.kept ≡ store.old.kept }
{
    let mut steps = Steps::<L>::new(blank);
    store.report(seen.id, seen.checker, seen.pass, &mut steps)
}

/// Writes the reply to a packet, as a line. It takes no memory.
pub fn query<K: Sink>(
    store: &mut Store,
    tables: &Tables,
    asked: &QueryLine,
    reply: &mut Reply,
    text: &mut Vec<u8>,
    out: &mut K,
) -> Taken
    requires reply { reply.old.room ≡ 4096 }
    requires room { ROOM ≤ vec_capacity text.old }
    ensures leaves { (engine : Engine) (held : List ℕ) → StandsFor engine store.old
        → K.held out.old ≡ Some held
        → Replies result (Answered tables.now asked.now) engine
        (λ after. StandsFor after store.new) held (K.held out.new) }
    ensures same { store.new ≡ store.old }
    ensures reply { reply.new.room ≡ reply.old.room }
    ensures room { vec_capacity text.old ≤ vec_capacity text.new }
    ensures out_counts { K.faults out.old ≤ K.faults out.new }
    ensures cause { HasCause result 0 0 0 0 0 0 (K.faults out.old) (K.faults out.new) }
{
    match store.query(
        tables,
        asked.packet.as_slice(),
        asked.address,
        &asked.words,
        reply,
    ) {
        Some(_) => sent(send_octets(reply.bytes(), text, out)),
        None => sent(send_silence(text, out)),
    }
}

/// Writes the octets of a reply. No reply has more than 4,096; of a store that stands for nothing this
/// isn't told, and more would be refused for want of memory.
fn send_octets<K: Sink>(octets: &[u8], text: &mut Vec<u8>, out: &mut K) -> Output
    requires room { ROOM ≤ vec_capacity text.old }
    ensures writes { (held : List ℕ) → K.held out.old ≡ Some held
        → length octets.now ≤ 4096
        → OutputOf held (K.held out.new) result (query_text (Some octets.now)) }
    ensures room { vec_capacity text.old ≤ vec_capacity text.new }
    ensures counts { K.faults out.old ≤ K.faults out.new }
    ensures failed { result ≡ Output.Failed → Rose (K.faults out.old) (K.faults out.new) }
{
    if octets.len() > MOST_OCTETS {
        return send_outcome(&Outcome::Refused(Refusal::OutOfMemory), text, out);
    }
    send_answer(octets, text, out)
}
