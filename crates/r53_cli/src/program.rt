//! The top call: what the words ask for, and `once` step by step: memory, then input, then the reply.

ghost use Rattle.std.specs.Prelude.{◌≡◌, ◌≢◌, ℕ, ◌<◌, ◌≤◌, List, Some, length, IfOk, OnErr, map};
ghost use Rattle.std.specs.String.{string_bytes};
ghost use Rattle.octets.specs.Counts.{Rose};
ghost use Rattle.r53_cli.specs.Forms.{HasNoForm, IsFew, IsForm};
ghost use Rattle.r53_cli.specs.Once.{HasOnce};
ghost use Rattle.r53_cli.specs.Run.{Ran, Responds, HasCause, IsCarriedOut};
ghost use Rattle.r53_cli.specs.Sessions.{FormLeaves, IsOnceForm, Refuses};
ghost use Rattle.r53_cli.specs.declared.form.Form.{Form};
ghost use Rattle.r53_cli.specs.Streams.{input_limit};

use crate::form::{Form, form_of};
use crate::intake::{Incoming, PACKET_LEN, take_packet};
use crate::laws::one_form;
use crate::once::Once;
use crate::sessions::{run_drill, run_dump, run_init, run_lines};
use crate::status::Status;
use dns_wire::Reply;
use octets::{OutOfMemory, front, zeros};
use r53_disk::Disk;
use r53_io::{Link, Sink, Source};
use rand_core::Rng;
use std::alloc::Global;
use whole_writing::{Output, write_whole};

/// The most octets of a reply.
const REPLY_ROOM: usize = 4096;

/// Runs the program: `args` are the words behind its name.
///
/// `once NAME TTL ADDRESS` reads one packet from `input`, and writes the reply to `out`. `init` makes a store with nothing in
/// it on the two disks. `run` reads the tables, opens the store, and takes the control lines of `input`, whose replies it
/// writes to `out`, over the network and the random source. `dump` opens the store, and writes what it holds to `out`. `drill N`
/// makes a store, runs N events over it, and writes to `out` what they came to.
pub fn run<S: Source, T: Source, K: Sink, D: Disk, L: Link, R: Rng>(
    alloc: Global,
    args: &[String],
    input: &mut S,
    tables: &mut T,
    out: &mut K,
    a: &mut D,
    b: &mut D,
    link: &mut L,
    words: &mut R,
) -> Status
    // Usage comes where the words are of no form, and there alone; only want of memory for an address
    // comes before it, and nothing is asked.
    ensures usage { result ≡ Status.Usage → HasNoForm (map string_bytes args.now) }
    ensures refused { HasNoForm (map string_bytes args.now)
        → Refuses (map string_bytes args.now) result a.old a.new b.old b.new
        (record {
          left = S.left input.old;
          rows = T.left tables.old;
          held = K.held out.old;
          ports = L.ports link.old;
          coming = L.coming link.old;
          sent = L.sent link.old;
          words = R.stream words.old;
        })
        (record {
          left = S.left input.new;
          rows = T.left tables.new;
          held = K.held out.new;
          ports = L.ports link.new;
          coming = L.coming link.new;
          sent = L.sent link.new;
          words = R.stream words.new;
        })
        (record {
          input = S.faults input.old;
          tables = T.faults tables.old;
          out = K.faults out.old;
          a = D.faults a.old;
          b = D.faults b.old;
          link = L.faults link.old;
        })
        (record {
          input = S.faults input.new;
          tables = T.faults tables.new;
          out = K.faults out.new;
          a = D.faults a.new;
          b = D.faults b.new;
          link = L.faults link.new;
        }) }

    // What is written, sent and kept, by the form and the status, with the cause of each fault.
    ensures leaves { (form : Form) → IsForm (map string_bytes args.now) form
        → FormLeaves D.reading D.images D.moment D.images_since form result a.old a.new b.old b.new
        (record {
          left = S.left input.old;
          rows = T.left tables.old;
          held = K.held out.old;
          ports = L.ports link.old;
          coming = L.coming link.old;
          sent = L.sent link.old;
          words = R.stream words.old;
        })
        (record {
          left = S.left input.new;
          rows = T.left tables.new;
          held = K.held out.new;
          ports = L.ports link.new;
          coming = L.coming link.new;
          sent = L.sent link.new;
          words = R.stream words.new;
        })
        (record {
          input = S.faults input.old;
          tables = T.faults tables.old;
          out = K.faults out.old;
          a = D.faults a.old;
          b = D.faults b.old;
          link = L.faults link.old;
        })
        (record {
          input = S.faults input.new;
          tables = T.faults tables.new;
          out = K.faults out.new;
          a = D.faults a.new;
          b = D.faults b.new;
          link = L.faults link.new;
        }) }

    // Words of `once`, an input within the limit and no fault: the run is served, or finds no memory.
    ensures complete { HasOnce (map string_bytes args.now)
        → (bytes : List ℕ) → S.left input.old ≡ Some bytes → length bytes < input_limit
        → (Rose (S.faults input.old) (S.faults input.new) → ⊥)
        → (Rose (K.faults out.old) (K.faults out.new) → ⊥)
        → IsCarriedOut result }
{
    one_form();
    match form_of(alloc, args) {
        Ok(Some(form)) => run_form(alloc, &form, input, tables, out, a, b, link, words),
        Ok(None) => Status::Usage,
        Err(OutOfMemory) => Status::OutOfMemory,
    }
}

/// Runs a form.
fn run_form<S: Source, T: Source, K: Sink, D: Disk, L: Link, R: Rng>(
    alloc: Global,
    form: &Form,
    input: &mut S,
    tables: &mut T,
    out: &mut K,
    a: &mut D,
    b: &mut D,
    link: &mut L,
    words: &mut R,
) -> Status
    requires few { IsFew form.now }
    ensures built { result ≢ Status.Usage }
    ensures leaves { FormLeaves D.reading D.images D.moment D.images_since form.now result
        a.old a.new b.old b.new
        (record {
          left = S.left input.old;
          rows = T.left tables.old;
          held = K.held out.old;
          ports = L.ports link.old;
          coming = L.coming link.old;
          sent = L.sent link.old;
          words = R.stream words.old;
        })
        (record {
          left = S.left input.new;
          rows = T.left tables.new;
          held = K.held out.new;
          ports = L.ports link.new;
          coming = L.coming link.new;
          sent = L.sent link.new;
          words = R.stream words.new;
        })
        (record {
          input = S.faults input.old;
          tables = T.faults tables.old;
          out = K.faults out.old;
          a = D.faults a.old;
          b = D.faults b.old;
          link = L.faults link.old;
        })
        (record {
          input = S.faults input.new;
          tables = T.faults tables.new;
          out = K.faults out.new;
          a = D.faults a.new;
          b = D.faults b.new;
          link = L.faults link.new;
        }) }
    ensures complete { IsOnceForm form.now
        → (bytes : List ℕ) → S.left input.old ≡ Some bytes → length bytes < input_limit
        → (Rose (S.faults input.old) (S.faults input.new) → ⊥)
        → (Rose (K.faults out.old) (K.faults out.new) → ⊥)
        → IsCarriedOut result }
{
    match form {
        Form::Once(once) => run_once(alloc, once, input, out),
        Form::Init => run_init(a, b),
        Form::Run => run_lines(alloc, input, tables, out, a, b, link, words),
        Form::Dump => run_dump(alloc, out, a, b),
        Form::Drill(events) => run_drill(alloc, *events, out, a, b),
    }
}

/// Runs `once`, for words that are of that form.
fn run_once<S: Source, K: Sink>(alloc: Global, once: &Once, input: &mut S, out: &mut K) -> Status
    ensures ran { Ran result once.now
        (record { left = S.left input.old; held = K.held out.old })
        (record { left = S.left input.new; held = K.held out.new }) }
    ensures cause { HasCause result (S.faults input.old) (S.faults input.new)
        (K.faults out.old) (K.faults out.new) }
    ensures complete { (bytes : List ℕ) → S.left input.old ≡ Some bytes → length bytes < input_limit
        → (Rose (S.faults input.old) (S.faults input.new) → ⊥)
        → (Rose (K.faults out.old) (K.faults out.new) → ⊥)
        → IsCarriedOut result }
{
    match answer_once(alloc, once, input, out) {
        Ok(status) => status,
        Err(OutOfMemory) => Status::OutOfMemory,
    }
}

/// Answers one packet by one record. It takes its memory before it reads.
fn answer_once<S: Source, K: Sink>(
    alloc: Global,
    once: &Once,
    input: &mut S,
    out: &mut K,
) -> Result<Status, OutOfMemory>
    ensures ran { IfOk result (λ status. Ran status once.now
        (record { left = S.left input.old; held = K.held out.old })
        (record { left = S.left input.new; held = K.held out.new })) }
    ensures cause { IfOk result (λ status. HasCause status (S.faults input.old) (S.faults input.new)
        (K.faults out.old) (K.faults out.new)) }
    ensures read_nothing { OnErr result (S.left input.new ≡ S.left input.old) }
    ensures wrote_nothing { OnErr result (K.held out.new ≡ K.held out.old) }
{
    let mut packet = zeros(alloc, PACKET_LEN)?;
    let mut reply = Reply::new(alloc, REPLY_ROOM)?;
    Ok(serve(once, packet.as_mut_slice(), &mut reply, input, out))
}

/// Reads a packet into a buffer, and writes the reply to it.
fn serve<S: Source, K: Sink>(
    once: &Once,
    buffer: &mut [u8],
    reply: &mut Reply,
    input: &mut S,
    out: &mut K,
) -> Status
    requires buffer { length buffer.old ≡ 65535 }
    requires room { 4096 ≤ reply.old.room }
    ensures ran { Ran result once.now
        (record { left = S.left input.old; held = K.held out.old })
        (record { left = S.left input.new; held = K.held out.new }) }
    ensures cause { HasCause result (S.faults input.old) (S.faults input.new)
        (K.faults out.old) (K.faults out.new) }
{
    let mut rest = [0; 4096];
    match take_packet(input, buffer, &mut rest) {
        Incoming::Failed => Status::ReadFault,
        Incoming::TooLong => Status::InputTooLong,
        Incoming::Packet(len) => respond(once, front(buffer, len), reply, out),
    }
}

/// Writes the reply to a packet.
fn respond<K: Sink>(once: &Once, packet: &[u8], reply: &mut Reply, out: &mut K) -> Status
    requires { 4096 ≤ reply.old.room }
    ensures responds { Responds result once.now packet.now (K.held out.old) (K.held out.new) }
    ensures failed { result ≡ Status.WriteFault → Rose (K.faults out.old) (K.faults out.new) }
{
    match once.answer(packet, reply) {
        None => Status::Done,
        Some(_) => match write_whole(out, reply.bytes()) {
            Output::Whole => Status::Done,
            Output::Failed => Status::WriteFault,
        },
    }
}
