//! Ports, and turns on them.

ghost use Rattle.std.specs.Prelude.{◌≡◌, ◌≤◌, ℕ, List, Some, false, length, true, vec_capacity};
ghost use Rattle.serve_turns.specs.LineRecord.TheVariants as line;
ghost use Rattle.line_server.specs.Leaving.{HasCause, StepLeaves, TurnsInPart};
ghost use Rattle.line_server.specs.Standing.{IsBound, IsTurnsOutcome};
ghost use Rattle.serve_turns.specs.Stores.{StandsFor};
ghost use Rattle.serve_turns.specs.Turning.{GoesOn};
ghost use Rattle.serve_turns.specs.ServingOfSessionModel.{Datagram};
ghost use Rattle.serve_turns.specs.Steps.{LineSteps, State, Surroundings};

use crate::answers::Taken;
use crate::sending::sent;
use dns_wire::Reply;
use geo_latency::Tables;
use query_lines::Ports;
use r53_io::{Bound, Link, Sink};
use rand_core::Rng;
use reply_sending::{Outcome, ROOM, send_outcome};
use serve_turns::{PacketCache, Store, TurnsTaken, serve};

/// Binds ports, and writes the reply. After an Ok bind another is AlreadyBound.
///
/// Where the network fails nothing is bound, and no part of the reply is written.
pub fn bind_ports<L: Link, K: Sink>(
    bound: &mut bool,
    ports: Ports,
    link: &mut L,
    text: &mut Vec<u8>,
    out: &mut K,
) -> Taken
    requires room { ROOM ≤ vec_capacity text.old }
    ensures leaves { (around : Surroundings) (old : State) (held : List ℕ) (before : List Datagram)
        → old.bound ≡ bound.old → L.ports link.old ≡ Some around.given
        → K.held out.old ≡ Some held → L.sent link.old ≡ Some before
        → StepLeaves result (LineSteps around (line.Bind ports) old) (λ sent. sent ≡ Some before)
        (IsBound old bound.new) held before (K.held out.new) (L.sent link.new) }
    ensures unbound { result ≡ Taken.LinkFault → bound.new ≡ bound.old }

    // The network is asked where no ports are bound alone.
    ensures asked { result ≡ Taken.LinkFault → bound.old ≡ false }
    ensures coming { L.coming link.new ≡ L.coming link.old }
    ensures ports { L.ports link.new ≡ L.ports link.old }
    ensures room { vec_capacity text.old ≤ vec_capacity text.new }
    ensures link_counts { L.faults link.old ≤ L.faults link.new }
    ensures out_counts { K.faults out.old ≤ K.faults out.new }
    ensures cause { HasCause result 0 0 0 0 (L.faults link.old) (L.faults link.new)
        (K.faults out.old) (K.faults out.new) }
{
    if *bound {
        return sent(send_outcome(&Outcome::AlreadyBound, text, out));
    }
    match link.bind(ports.queries, ports.reports) {
        Bound::Ports(queries, reports) => {
            *bound = true;
            let given = Ports { queries, reports };
            sent(send_outcome(&Outcome::Bound(given), text, out))
        }
        Bound::Failed => Taken::LinkFault,
    }
}

/// Takes turns of the network, and writes the reply with their counts. Before a bind it is NotBound.
///
/// Where the network fails nothing is written, and what was sent is that of the turns that ended.
pub fn take_turns<L: Link, R: Rng, K: Sink>(
    bound: bool,
    store: &mut Store,
    tables: &Tables,
    turns: u32,
    link: &mut L,
    words: &mut R,
    packet: &mut [u8],
    replies: &mut PacketCache,
    reply: &mut Reply,
    text: &mut Vec<u8>,
    out: &mut K,
) -> Taken
    requires packet { 65535 ≤ length packet.old }
    requires reply { 4096 ≤ reply.old.room }
    requires room { ROOM ≤ vec_capacity text.old }
    ensures leaves { (around : Surroundings) (old : State) (held : List ℕ) (before : List Datagram)
        → around.tables ≡ tables.now → old.bound ≡ bound → StandsFor old.engine store.old
        → L.coming link.old ≡ Some old.arrivals → old.words ≡ R.stream words.old
        → K.held out.old ≡ Some held → L.sent link.old ≡ Some before
        → StepLeaves result (LineSteps around (line.Serve turns) old)
        (TurnsInPart around turns old before (L.coming link.new))
        (IsTurnsOutcome bound store.new (L.coming link.new) (R.stream words.new)) held before
        (K.held out.new) (L.sent link.new) }

    // The network is asked where ports are bound alone.
    ensures asked { result ≡ Taken.LinkFault → bound ≡ true }

    // Whatever is told, the store stands for what it stood for, with more reports.
    ensures reports { GoesOn store.old store.new }
    ensures kept { store.new.kept ≡ store.old.kept }
    ensures packet { length packet.new ≡ length packet.old }
    ensures reply { reply.new.room ≡ reply.old.room }
    ensures ports { L.ports link.new ≡ L.ports link.old }
    ensures room { vec_capacity text.old ≤ vec_capacity text.new }
    ensures link_counts { L.faults link.old ≤ L.faults link.new }
    ensures out_counts { K.faults out.old ≤ K.faults out.new }
    ensures cause { HasCause result 0 0 0 0 (L.faults link.old) (L.faults link.new)
        (K.faults out.old) (K.faults out.new) }
{
    if !bound {
        return sent(send_outcome(&Outcome::NotBound, text, out));
    }
    match serve(store, tables, link, words, turns, packet, replies, reply) {
        TurnsTaken::Took(took) => sent(send_outcome(&Outcome::Served(took), text, out)),
        TurnsTaken::Failed => Taken::LinkFault,
    }
}
