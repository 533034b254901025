//! A turn of the loop: a line is taken, or the source is read once.

ghost use Rattle.std.specs.Prelude.{◌≡◌, ◌≤◌, ◌<◌, ℕ, List, IfSome, None, Some, false};
ghost use Rattle.line_splitting.specs.Reading.{steps};
ghost use Rattle.engine_model.specs.Engine.{Engine};
ghost use Rattle.session_loop.specs.Ending.{FilesKept, HasCause};
ghost use Rattle.session_loop.specs.Turning.{RoundLeaves, ended_of};
ghost use Rattle.session_server.specs.Serving.{Datagram};
ghost use Rattle.session_server.specs.Steps.{State, Surroundings};
ghost use Rattle.session_server.specs.Holding.{Holds};
ghost use Rattle.session_server.specs.Keeping.{MakesOneMore};
ghost use Rattle.session_server.specs.Standing.{StandsFor};
ghost use Rattle.session_server.specs.Stores.{StandsFor as StoreStandsFor};
ghost use Rattle.zone_journal.specs.Pairs.{BothRead};
ghost use Rattle.zone_journal.specs.Standing.{StandsOn};

use crate::ended::Ended;
use line_splitting::{LineReader, Next};
use r53_disk::Disk;
use r53_io::{Link, Sink, Source};
use rand_core::Rng;
use session_server::{Server, Taken, standing_opens};
use std::alloc::Global;
use store_model::standing_shapes;

/// Takes the next line, or reads once; and tells how the lines ended, where they did.
pub(crate) fn take_next<S: Source, D: Disk, L: Link, R: Rng, K: Sink>(
    alloc: Global,
    reader: &mut LineReader,
    server: &mut Server,
    input: &mut S,
    a: &mut D,
    b: &mut D,
    link: &mut L,
    words: &mut R,
    out: &mut K,
) -> Option<Ended>
    requires stands { StandsOn D.reading D.images server.old.store.kept.journal a.old b.old }
    ensures leaves { (around : Surroundings) (old : State) (left : List ℕ) (held : List ℕ)
        (before : List Datagram) → around.tables ≡ server.old.tables
        → StandsFor old server.old (L.coming link.old) (R.stream words.old)
        → BothRead D.reading a.old b.old (Holds server.old.store.kept)
        → L.ports link.old ≡ Some around.given → S.left input.old ≡ Some left
        → K.held out.old ≡ Some held → L.sent link.old ≡ Some before
        → RoundLeaves result D.images a.new b.new around reader.old reader.new left
        (S.left input.new) old server.new (L.coming link.new) (R.stream words.new) held before
        (K.held out.new) (L.sent link.new) }
    ensures stands { result ≡ None
        → StandsOn D.reading D.images server.new.store.kept.journal a.new b.new }
    ensures holds { BothRead D.reading a.old b.old (Holds server.old.store.kept) → result ≡ None
        → BothRead D.reading a.new b.new (Holds server.new.store.kept) }
    ensures made { result ≡ None → MakesOneMore server.old.store server.new.store }
    ensures files { (engine : Engine) → StoreStandsFor engine server.old.store
        → BothRead D.reading a.old b.old (Holds server.old.store.kept)
        → IfSome result (λ ended. FilesKept ended D.images a.new b.new engine.config) }
    ensures nearer { result ≡ None → steps reader.new < steps reader.old }
    ensures going { result ≡ Some Ended.ReadFault → reader.old.ended ≡ false }
    ensures tables { server.new.tables ≡ server.old.tables }
    ensures ports { L.ports link.new ≡ L.ports link.old }
    ensures in_counts { S.faults input.old ≤ S.faults input.new }
    ensures a_counts { D.faults a.old ≤ D.faults a.new }
    ensures b_counts { D.faults b.old ≤ D.faults b.new }
    ensures link_counts { L.faults link.old ≤ L.faults link.new }
    ensures out_counts { K.faults out.old ≤ K.faults out.new }
    ensures cause { IfSome result (λ ended. HasCause ended (S.faults input.old) (S.faults input.new)
        (D.faults a.old) (D.faults a.new) (D.faults b.old) (D.faults b.new) (L.faults link.old)
        (L.faults link.new) (K.faults out.old) (K.faults out.new)) }
{
    standing_opens::<D>();
    standing_shapes::<D>();
    match reader.next(input) {
        Next::Line => { ended_of(server.take_line(alloc, reader.line(), a, b, link, words, out)) }
        Next::TooLong => ended_of(server.refuse_line(out)),
        Next::Read => None,
        Next::Failed => Some(Ended::ReadFault),
        Next::Ended => Some(Ended::Done),
        Next::InputTooLong => Some(Ended::InputTooLong),
    }
}

/// How the lines ended with a line, if they did.
fn ended_of(taken: Taken) -> Option<Ended>
    ensures { result ≡ ended_of taken }
{
    match taken {
        Taken::Replied => None,
        Taken::WriteFault => Some(Ended::WriteFault),
        Taken::DiskFault => Some(Ended::DiskFault),
        Taken::LinkFault => Some(Ended::LinkFault),
    }
}
