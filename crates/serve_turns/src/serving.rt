//! Turns, one after another.

ghost use Rattle.std.specs.Prelude.{◌≡◌, ◌≤◌, List, Some, length};
ghost use Rattle.session_model.specs.Engine.{Engine};
ghost use Rattle.octets.specs.Counts.{Rose};
ghost use Rattle.r53_core.specs.Stores.{StandsFor};
ghost use Rattle.r53_io.specs.Network.{Incoming};
ghost use Rattle.serve_turns.specs.Turning.{GoesOn, TurnsLeave, first};
ghost use Rattle.session_model.specs.Serving.{Datagram, none};

use crate::counting::no_turns;
use crate::turning::{Turn, take_turn};
use dns_wire::Reply;
use geo_latency::Tables;
use packet_cache::PacketCache;
use r53_core::Store;
use r53_io::Link;
use rand_core::Rng;
use session_model::Turns;

/// What came of turns.
#[derive(Clone, Copy, Debug, PartialEq, Eq)]
pub enum TurnsTaken {
    /// So many turns were taken: as many as were asked for, or fewer where the network was closed.
    Took(Turns),
    /// The network failed.
    Failed,
}

/// Takes so many turns, or fewer where the network is closed. It takes no memory.
///
/// Where the network fails, this call takes no later turn. What replies are kept before it and after it
/// doesn't matter.
pub fn serve<L: Link, R: Rng>(
    store: &mut Store,
    tables: &Tables,
    link: &mut L,
    words: &mut R,
    n: u32,
    packet: &mut [u8],
    replies: &mut PacketCache,
    reply: &mut Reply,
) -> TurnsTaken
    requires packet { 65535 ≤ length packet.old }
    requires room { 4096 ≤ reply.old.room }

    // The turns are those of the definitions, over what comes and the words that are drawn.
    ensures leaves { (engine : Engine) (arrivals : List Incoming) (before : List Datagram)
        → StandsFor engine store.old → L.coming link.old ≡ Some arrivals
        → L.sent link.old ≡ Some before
        → TurnsLeave result tables.now before n (first engine (R.stream words.old)) arrivals
        (λ after. StandsFor after store.new)
        (record {
          words = R.stream words.new;
          turns = none;
          coming = L.coming link.new;
          sent = L.sent link.new;
        }) }

    // Whatever the network tells, the store stands for what it stood for, with more reports.
    ensures reports { GoesOn store.old store.new }

    // What is kept of the configuration stays.
    ensures kept { store.new.kept ≡ store.old.kept }
    ensures packet { length packet.new ≡ length packet.old }
    ensures room { reply.new.room ≡ reply.old.room }

    // The ports that the network gives stay.
    ensures ports { L.ports link.new ≡ L.ports link.old }

    // It fails only where the network's count rose.
    ensures counts { L.faults link.old ≤ L.faults link.new }
    ensures failed { result ≡ TurnsTaken.Failed → Rose (L.faults link.old) (L.faults link.new) }
{
    replies.clear();
    let mut turns = no_turns();
    while turns.turns < n {
        match take_turn(
            store, tables, link, words, packet, replies, reply, &mut turns,
        ) {
            Turn::Taken => {}
            Turn::Closed => return TurnsTaken::Took(turns),
            Turn::Failed => return TurnsTaken::Failed,
        }
    }
    TurnsTaken::Took(turns)
}
