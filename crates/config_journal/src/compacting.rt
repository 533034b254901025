//! A compaction, piece by piece: the configuration's snapshot is built as the other file.

ghost use Rattle.std.specs.Prelude.{◌≡◌, ◌≤◌, ◌<◌, ◌+◌, ◌^◌, ◌⊎◌, length, IfErr, IfOk, IsSome, None};
ghost use Rattle.config_journal.specs.Compacting.{CompactGives, PiecesGive, UnlessFaulty};
ghost use Rattle.config_journal.specs.Compacting.{WhereNone, told_as};
ghost use Rattle.config_journal.specs.Holding.{Holds};
ghost use Rattle.config_journal.specs.States.{config_of};
ghost use Rattle.r53_state.specs.Sound.{Sound};
ghost use Rattle.engine_model.specs.declared.answers.Compacted.TheVariants as Compacted;
ghost use Rattle.octets.specs.Counts.{Rose};
ghost use Rattle.r53_disk.specs.Disk.{Rests};
ghost use Rattle.r53_state.specs.Octets.{snapshot};
ghost use Rattle.store_model.specs.Opening.{OpensConfig};
ghost use Rattle.zone_journal.specs.Compacting.{Begins};
ghost use Rattle.zone_journal.specs.Pairs.{EachPair, BothRead, active_of};
ghost use Rattle.zone_journal.specs.Standing.{StandsOn};
ghost use Rattle.zone_journal.specs.declared.answers.Begun.TheVariants as Begun;

use crate::journaled::ConfigJournal;
use engine_model::Compacted;
use octets::OutOfMemory;
use r53_disk::Disk;
use r53_state::write_snapshot;
use std::alloc::Global;
use store_model::{
    pieces_follow, pieces_may_open, pieces_open, plan_begins, plan_makes, standing_opens,
    standing_place,
};
use zone_journal::{Begun, Piece, begins_in_place};

impl ConfigJournal {
    /// Makes so many pieces of the compaction that is in progress, or of one that begins with them;
    /// fewer where the new file decides before. The configuration stays.
    ///
    /// Memory is wanted where a compaction begins alone. After a fault of a disk the files open to
    /// the configuration still, and the store is opened again for commands.
    pub fn compact<D: Disk>(
        &mut self,
        alloc: Global,
        a: &mut D,
        b: &mut D,
        pieces: u32,
    ) -> Compacted
        requires stands { StandsOn D.reading D.images self.old.journal a.old b.old }
        requires some { 1 ≤ pieces }
        ensures gives { CompactGives result self.old pieces self.new }
        ensures stands { UnlessFaulty result
            (StandsOn D.reading D.images self.new.journal a.new b.new) }
        ensures holds { BothRead D.reading a.old b.old (Holds self.old)
            → UnlessFaulty result (BothRead D.reading a.new b.new (Holds self.new)) }

        // At each moment every image pair opens to the configuration.
        ensures any_moment { BothRead D.reading a.old b.old (Holds self.old)
            → EachPair D.moment D.images_since a.old a.new b.old b.new
            (λ x y. OpensConfig x y (config_of self.old)) }

        // Where no piece is made both disks are as they were; the file that decided is read alone.
        ensures none { WhereNone result ((a.new ≡ a.old) × (b.new ≡ b.old)) }
        ensures rests { Rests D.reading D.images D.moment D.images_since
            (active_of self.old.journal.side a.old b.old)
            (active_of self.old.journal.side a.new b.new) }

        // It fails only where the count of a disk rose.
        ensures a_counts { D.faults a.old ≤ D.faults a.new }
        ensures b_counts { D.faults b.old ≤ D.faults b.new }
        ensures failed { result ≡ Compacted.DiskFault
            → Rose (D.faults a.old) (D.faults a.new) ⊎ Rose (D.faults b.old) (D.faults b.new) }
    {
        begins_in_place::<D>();
        plan_begins();
        standing_opens::<D>();
        standing_place::<D>();
        if self.journal.progress().is_some() {
            return self.go_on(a, b, pieces);
        }
        if self.journal.generation() == u64::MAX {
            return Compacted::GenerationsEnded;
        }
        match self.begin(alloc) {
            Ok(()) => self.go_on(a, b, pieces),
            Err(_) => Compacted::OutOfMemory,
        }
    }

    /// Begins a compaction to the snapshot of the configuration. It asks nothing of the disks.
    fn begin(&mut self, alloc: Global) -> Result<(), OutOfMemory>
        requires idle { self.old.journal.plan ≡ None }
        requires more { self.old.journal.generation + 1 < 2 ^ 64 }
        ensures config { self.new.config ≡ self.old.config }
        ensures begun { IfOk result (λ done. Begins Begun.Begun (snapshot (config_of self.old))
            self.old.journal self.new.journal) }
        ensures short { IfOk result (λ done. length (snapshot (config_of self.old)) ≤ 268435435) }
        ensures sound { Sound (config_of self.old) }
        ensures none { IfErr result (λ why. self.new ≡ self.old) }
    {
        self.config.well_formed();
        let octets = write_snapshot(
            alloc,
            self.config.zones(),
            self.config.checks(),
            self.config.next_zone(),
        )?;
        match self.journal.compact_begin(octets) {
            Begun::Begun => Ok(()),
            Begun::GenerationsEnded => unreachable!(),
        }
    }

    /// Makes so many pieces of the compaction that is in progress, or fewer where it ends before.
    fn go_on<D: Disk>(&mut self, a: &mut D, b: &mut D, pieces: u32) -> Compacted
        requires stands { StandsOn D.reading D.images self.old.journal a.old b.old }
        requires in_progress { IsSome self.old.journal.plan }
        requires some { 1 ≤ pieces }
        ensures config { self.new.config ≡ self.old.config }
        ensures gives { PiecesGive result self.old.journal pieces self.new.journal }
        ensures stands { UnlessFaulty result
            (StandsOn D.reading D.images self.new.journal a.new b.new) }
        ensures holds { BothRead D.reading a.old b.old (Holds self.old)
            → UnlessFaulty result (BothRead D.reading a.new b.new (Holds self.new)) }
        ensures any_moment { BothRead D.reading a.old b.old (Holds self.old)
            → EachPair D.moment D.images_since a.old a.new b.old b.new
            (λ x y. OpensConfig x y (config_of self.old)) }
        ensures rests { Rests D.reading D.images D.moment D.images_since
            (active_of self.old.journal.side a.old b.old)
            (active_of self.old.journal.side a.new b.new) }
        ensures a_counts { D.faults a.old ≤ D.faults a.new }
        ensures b_counts { D.faults b.old ≤ D.faults b.new }
        ensures failed { result ≡ Compacted.DiskFault
            → Rose (D.faults a.old) (D.faults a.new) ⊎ Rose (D.faults b.old) (D.faults b.new) }
    {
        pieces_follow::<D>();
        standing_opens::<D>();
        for made in 0..pieces - 1 {
            match self.piece(a, b) {
                Compacted::Left(_) => {}
                ended => return ended,
            }
        }
        self.piece(a, b)
    }

    /// Makes one piece of the compaction that is in progress.
    fn piece<D: Disk>(&mut self, a: &mut D, b: &mut D) -> Compacted
        requires stands { StandsOn D.reading D.images self.old.journal a.old b.old }
        requires in_progress { IsSome self.old.journal.plan }
        ensures config { self.new.config ≡ self.old.config }
        ensures gives { PiecesGive result self.old.journal 1 self.new.journal }
        ensures stands { UnlessFaulty result
            (StandsOn D.reading D.images self.new.journal a.new b.new) }
        ensures holds { BothRead D.reading a.old b.old (Holds self.old)
            → UnlessFaulty result (BothRead D.reading a.new b.new (Holds self.new)) }
        ensures any_moment { BothRead D.reading a.old b.old (Holds self.old)
            → EachPair D.moment D.images_since a.old a.new b.old b.new
            (λ x y. OpensConfig x y (config_of self.old)) }
        ensures rests { Rests D.reading D.images D.moment D.images_since
            (active_of self.old.journal.side a.old b.old)
            (active_of self.old.journal.side a.new b.new) }
        ensures a_counts { D.faults a.old ≤ D.faults a.new }
        ensures b_counts { D.faults b.old ≤ D.faults b.new }
        ensures failed { result ≡ Compacted.DiskFault
            → Rose (D.faults a.old) (D.faults a.new) ⊎ Rose (D.faults b.old) (D.faults b.new) }
    {
        plan_makes();
        pieces_may_open::<D>();
        pieces_open::<D>();
        told_as(self.journal.compact_piece(a, b))
    }
}

/// What is told of a piece.
fn told_as(piece: Piece) -> Compacted
    ensures { result ≡ told_as piece }
{
    match piece {
        Piece::Running(left) => Compacted::Left(left),
        Piece::Done(generation) => Compacted::Done(generation),
        Piece::DiskFault => Compacted::DiskFault,
    }
}
