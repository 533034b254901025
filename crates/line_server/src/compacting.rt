//! Compactions.

ghost use Rattle.std.specs.Prelude.{◌≡◌, ◌≤◌, ℕ, List, None, Some, IsTrue, ◌↔◌, vec_capacity};
ghost use Rattle.serve_turns.specs.Holding.{Holds};
ghost use Rattle.serve_turns.specs.Engine.{Engine};
ghost use Rattle.serve_turns.specs.CompactedRecord.TheVariants as Compacted;
ghost use Rattle.line_server.specs.Asking.{CompactionAsksDisk};
ghost use Rattle.line_server.specs.Leaving.{HasCause, StepOrNone, StoreLeaves, Halted, UnlessHalted};
ghost use Rattle.line_server.specs.Replying.{Compacts};
ghost use Rattle.serve_turns.specs.Stores.{StandsFor};
ghost use Rattle.serve_turns.specs.Replies.{compact_outcome};
ghost use Rattle.zone_journal.specs.Pairs.{BothRead};
ghost use Rattle.zone_journal.specs.Standing.{StandsOn};

use crate::answers::Taken;
use crate::sending::sent;
use r53_disk::Disk;
use r53_io::Sink;
use reply_sending::{Outcome, ROOM, Refusal, send_outcome};
use serve_turns::{Compacted, Store};
use std::alloc::Global;

/// Makes pieces of a compaction, and writes the reply.
///
/// Memory may be wanted where a compaction would begin, which is replied. Where a disk fails nothing is
/// written, and the store is opened again; its files open to the configuration.
pub fn compact<D: Disk, K: Sink>(
    alloc: Global,
    store: &mut Store,
    pieces: u32,
    a: &mut D,
    b: &mut D,
    text: &mut Vec<u8>,
    out: &mut K,
) -> Taken
    requires some { 1 ≤ pieces }
    requires stands { StandsOn D.reading D.images store.old.kept.journal a.old b.old }
    requires room { ROOM ≤ vec_capacity text.old }
    ensures leaves { (engine : Engine) (held : List ℕ) → StandsFor engine store.old
        → K.held out.old ≡ Some held
        → StoreLeaves
        ((engine.journal.plan ≡ None) × ((a.new ≡ a.old) × (b.new ≡ b.old))) result
        (Compacts pieces) engine (λ after. StandsFor after store.new) held (K.held out.new) }

    // Also where the sink tells nothing.
    ensures made { (engine : Engine) → StandsFor engine store.old
        → (after : Engine) × StepOrNone (Compacts pieces) engine after × StandsFor after store.new }
    ensures stands { UnlessHalted result
        (StandsOn D.reading D.images store.new.kept.journal a.new b.new) }
    ensures holds { BothRead D.reading a.old b.old (Holds store.old.kept)
        → UnlessHalted result (BothRead D.reading a.new b.new (Holds store.new.kept)) }
    ensures torn { result ≡ Taken.DiskFault → (engine : Engine) → StandsFor engine store.old
        → BothRead D.reading a.old b.old (Holds store.old.kept)
        → Halted D.images a.new b.new (Compacts pieces) engine }

    // A disk is asked where a piece is made alone.
    ensures asked { result ≡ Taken.DiskFault → (engine : Engine) → StandsFor engine store.old
        → CompactionAsksDisk engine }
    ensures room { vec_capacity text.old ≤ vec_capacity text.new }
    ensures a_counts { D.faults a.old ≤ D.faults a.new }
    ensures b_counts { D.faults b.old ≤ D.faults b.new }
    ensures out_counts { K.faults out.old ≤ K.faults out.new }
    ensures cause { HasCause result (D.faults a.old) (D.faults a.new) (D.faults b.old)
        (D.faults b.new) 0 0 (K.faults out.old) (K.faults out.new) }
{
    let came = store.compact(alloc, a, b, pieces);
    if is_fault(came) {
        return Taken::DiskFault;
    }
    sent(send_outcome(&outcome_of(came), text, out))
}

/// Whether a disk failed.
fn is_fault(came: Compacted) -> bool
    ensures { IsTrue result ↔ (came ≡ Compacted.DiskFault) }
{
    matches!(came, Compacted::DiskFault)
}

/// What pieces came to.
fn outcome_of(came: Compacted) -> Outcome
    ensures { result ≡ compact_outcome came }
{
    match came {
        Compacted::Left(octets) => Outcome::Left(octets),
        Compacted::Done(generation) => Outcome::Compacted(generation),
        Compacted::GenerationsEnded => Outcome::GenerationsEnded,
        Compacted::OutOfMemory => Outcome::Refused(Refusal::OutOfMemory),
        Compacted::DiskFault => Outcome::Refused(Refusal::DiskFault),
    }
}
