//! One turn.

ghost use Rattle.std.specs.Prelude.{◌≡◌, ◌≢◌, ◌≤◌, List, length, take};
ghost use Rattle.octets.specs.Counts.{Rose};
ghost use Rattle.r53_io.specs.Network.{Incoming};
ghost use Rattle.serve_turns.specs.Turning.{AreWithin, Counts, GoesOn, PacketLeaves, IsAsDefined, TurnLeaves};
ghost use Rattle.serve_turns.specs.Settled.{Serves};
ghost use Rattle.session_model.specs.Serving.{Datagram, TurnsOutcome};

use crate::counting::{count_packet, count_quiet, count_report};
use crate::drawing::draw;
use crate::observing::observe;
use crate::replying::{octets_told, reply_to};
use dns_wire::Reply;
use geo_latency::Tables;
use octets::front;
use packet_cache::PacketCache;
use r53_core::Store;
use r53_io::{Arrival, Link, Peer, Sent};
use rand_core::Rng;
use session_model::Turns;

/// What a turn came to.
#[derive(Clone, Copy, Debug, PartialEq, Eq)]
pub(crate) enum Turn {
    /// Something came, or nothing for a while.
    Taken,
    /// Nothing will come any more: it isn't a turn.
    Closed,
    /// The network failed.
    Failed,
}

/// Takes a turn. The datagram that comes is put into `packet`.
pub(crate) fn take_turn<L: Link, R: Rng>(
    store: &mut Store,
    tables: &Tables,
    link: &mut L,
    words: &mut R,
    packet: &mut [u8],
    replies: &mut PacketCache,
    reply: &mut Reply,
    turns: &mut Turns,
) -> Turn
    requires packet { 65535 ≤ length packet.old }
    requires room { 4096 ≤ reply.old.room }
    requires few { AreWithin 4294967294 turns.old }
    ensures leaves { (before : List Datagram) (old : TurnsOutcome) (arrivals : List Incoming)
        → Serves old.engine tables.now store.old replies.old
        → IsAsDefined before old arrivals (record {
          words = R.stream words.old;
          turns = turns.old;
          coming = L.coming link.old;
          sent = L.sent link.old;
        })
        → TurnLeaves result tables.now before old arrivals (λ engine. Serves engine tables.now store.new replies.new)
        (record {
          words = R.stream words.new;
          turns = turns.new;
          coming = L.coming link.new;
          sent = L.sent link.new;
        }) }
    ensures counted { Counts result turns.old turns.new }
    ensures reports { GoesOn store.old store.new }
    ensures kept { store.new.kept ≡ store.old.kept }
    ensures packet { length packet.new ≡ length packet.old }
    ensures room { reply.new.room ≡ reply.old.room }
    ensures ports { L.ports link.new ≡ L.ports link.old }
    ensures counts { L.faults link.old ≤ L.faults link.new }
    ensures failed { result ≡ Turn.Failed → Rose (L.faults link.old) (L.faults link.new) }
{
    match link.receive(packet) {
        Arrival::Dns(peer, len) => answer(
            store, tables, link, words, peer, packet, len, replies, reply, turns,
        ),
        Arrival::Report(len) => {
            let taken = observe(store, front(packet, len), replies);
            count_report(turns, taken);
            Turn::Taken
        }
        Arrival::Quiet => {
            count_quiet(turns);
            Turn::Taken
        }
        Arrival::Closed => Turn::Closed,
        Arrival::Failed => Turn::Failed,
    }
}

/// Answers a packet that lies in front of these octets, where something is answered.
fn answer<L: Link, R: Rng>(
    store: &mut Store,
    tables: &Tables,
    link: &mut L,
    words: &mut R,
    peer: Peer,
    packet: &mut [u8],
    len: usize,
    replies: &mut PacketCache,
    reply: &mut Reply,
    turns: &mut Turns,
) -> Turn
    requires len { len ≤ length packet.old }
    requires room { 4096 ≤ reply.old.room }
    requires few { AreWithin 4294967294 turns.old }
    ensures leaves { (before : List Datagram) (old : TurnsOutcome) (arrivals : List Incoming)
        → Serves old.engine tables.now store.old replies.old
        → IsAsDefined before old arrivals (record {
          words = R.stream words.old;
          turns = turns.old;
          coming = L.coming link.old;
          sent = L.sent link.old;
        })
        → PacketLeaves result tables.now before peer (take len packet.old) old arrivals
        (λ engine. Serves engine tables.now store.new replies.new)
        (record {
          words = R.stream words.new;
          turns = turns.new;
          coming = L.coming link.new;
          sent = L.sent link.new;
        }) }
    ensures counted { Counts result turns.old turns.new }
    ensures reports { GoesOn store.old store.new }
    ensures kept { store.new.kept ≡ store.old.kept }
    ensures packet { length packet.new ≡ length packet.old }
    ensures room { reply.new.room ≡ reply.old.room }
    ensures ports { L.ports link.new ≡ L.ports link.old }
    ensures counts { L.faults link.old ≤ L.faults link.new }
    ensures failed { result ≡ Turn.Failed → Rose (L.faults link.old) (L.faults link.new) }
    ensures open { result ≢ Turn.Closed }
{
    let drawn = draw(words);
    let told = reply_to(
        store,
        tables,
        peer.address,
        &drawn,
        packet,
        len,
        replies,
        reply,
    );
    match octets_told(told, packet, reply) {
        None => {
            count_packet(turns, false);
            Turn::Taken
        }
        Some(octets) => match link.send(peer, octets) {
            Sent::Whole => {
                count_packet(turns, true);
                Turn::Taken
            }
            Sent::Failed => Turn::Failed,
        },
    }
}
