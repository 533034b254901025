//! The loop over an input.

ghost use Rattle.std.specs.Prelude.{◌≡◌, ◌≤◌, ℕ, List, Some};
ghost use Rattle.engine_model.specs.Engine.{Engine};
ghost use Rattle.session_loop.specs.Ending.{Ends, FilesKept, HasCause};
ghost use Rattle.session_loop.specs.Turning.{input_of};
ghost use Rattle.session_server.specs.Serving.{Datagram};
ghost use Rattle.session_server.specs.Steps.{State, Surroundings};
ghost use Rattle.session_server.specs.Holding.{Holds};
ghost use Rattle.session_server.specs.Standing.{StandsFor};
ghost use Rattle.session_server.specs.Stores.{StandsFor as StoreStandsFor};
ghost use Rattle.zone_journal.specs.Pairs.{BothRead};
ghost use Rattle.zone_journal.specs.Standing.{StandsOn};

use crate::ended::Ended;
use crate::turning::take_next;
use line_splitting::LineReader;
use r53_disk::Disk;
use r53_io::{Link, Sink, Source};
use rand_core::Rng;
use session_server::Server;
use std::alloc::Global;

/// Takes the lines that a reader and its source have to come, one after another.
pub fn take_lines<S: Source, D: Disk, L: Link, R: Rng, K: Sink>(
    alloc: Global,
    reader: &mut LineReader,
    server: &mut Server,
    input: &mut S,
    a: &mut D,
    b: &mut D,
    link: &mut L,
    words: &mut R,
    out: &mut K,
) -> Ended
    requires stands { StandsOn D.reading D.images server.old.store.kept.journal a.old b.old }

    // What was written and sent, what is left of the input, the network and the random words as far as
    // `Ends` says it, and what the files open to, where all that is asked tells what it has.
    ensures leaves { (around : Surroundings) (start : State) (left : List ℕ) (held : List ℕ)
        (before : List Datagram) → around.tables ≡ server.old.tables
        → StandsFor start server.old (L.coming link.old) (R.stream words.old)
        → BothRead D.reading a.old b.old (Holds server.old.store.kept)
        → L.ports link.old ≡ Some around.given → S.left input.old ≡ Some left
        → K.held out.old ≡ Some held → L.sent link.old ≡ Some before
        → Ends result D.images a.new b.new around (input_of reader.old left) start held before
        (S.left input.new) (L.coming link.new) (R.stream words.new) (K.held out.new)
        (L.sent link.new) }

    // That what the files open to was made by commands which break no rule, whatever the input, the output
    // and the network tell.
    ensures files { (engine : Engine) → StoreStandsFor engine server.old.store
        → BothRead D.reading a.old b.old (Holds server.old.store.kept)
        → FilesKept result D.images a.new b.new engine.config }

    // A fault comes only where the count of what failed rose.
    ensures in_counts { S.faults input.old ≤ S.faults input.new }
    ensures a_counts { D.faults a.old ≤ D.faults a.new }
    ensures b_counts { D.faults b.old ≤ D.faults b.new }
    ensures link_counts { L.faults link.old ≤ L.faults link.new }
    ensures out_counts { K.faults out.old ≤ K.faults out.new }
    ensures cause { HasCause result (S.faults input.old) (S.faults input.new) (D.faults a.old)
        (D.faults a.new) (D.faults b.old) (D.faults b.new) (L.faults link.old) (L.faults link.new)
        (K.faults out.old) (K.faults out.new) }
{
    loop {
        match take_next(alloc, reader, server, input, a, b, link, words, out) {
            Some(ended) => return ended,
            None => {}
        }
    }
}
