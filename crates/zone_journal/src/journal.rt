//! A store in use: entries read and appended, while pieces of the other file are built.

ghost use Rattle.std.specs.Prelude.{◌≡◌, ◌⊎◌, ◌≤◌, ◌+◌, ◌<◌, ◌++◌, ◌∷◌, [], List, ℕ, length, Some, None, IfOk, IsErrOf, IsSome, MatchOption, ◌^◌};
ghost use Rattle.octets.specs.Counts.{Rose};
ghost use Rattle.file_building.specs.Disk.{Only, LeavesOnly, Rests};
ghost use Rattle.file_building.specs.Append.{UnlessFault as UnlessAppendFault, OnFull, AppendLeaves as FileLeaves, MayLeave as FileMayLeave};
ghost use Rattle.file_building.specs.Layout.{OpensTo, front};
ghost use Rattle.file_building.specs.Read.{IsRead};
ghost use Rattle.zone_journal.specs.Pairs.{OpensPair, EachPair, BothRead, Unwritten, active_of, other_of, opposite};
ghost use Rattle.file_building.specs.Building.{Plan};
ghost use Rattle.zone_journal.specs.Standing.{PlanFits, left_of, progress_of, StandsOn, ReadsOn, IsOn, StandsWith, ReadsWith};
ghost use Rattle.zone_journal.specs.Appending.{AppendLeaves, MayLeave, MovesOn, HasCause, Fits, RefusesBy};
ghost use Rattle.zone_journal.specs.Compacting.{Begins, with_plan, IsLast, IsSince, PieceStands, PieceMoves, PieceLeaves, OtherLeft, IsOldOrNew, YieldsOrOpens, UnlessFault};
ghost use Rattle.zone_journal.specs.Opening.{OpenGives, OpenSyncs, BeginGives, NextGives, OnNone, UnlessSome, IsNoMore, IsChosen, on_side};

use crate::start::{Chosen, choose, settle};
use crate::{Begun, OpenFault, Piece, Progress, Side};
use file_building::{
    Appended, Compaction, Disk, Done, Entry, Journal, JournalFault, close_file, copy, fits,
    open_file,
};
use octets::zeros;
use std::alloc::Global;
use std::marker::Model;

/// The most bytes that one piece of a compaction copies.
const PIECE: usize = 65_536;

/// A journal over two disks. It keeps neither.
#[derive(Drop)]
pub struct ZoneJournal {
    side: Side,
    generation: u64,
    journal: Journal,
    plan: Option<Compaction>,
    buffer: Vec<u8>,
}

impl Model for ZoneJournal {
    ghost use Rattle.std.specs.Prelude.{◌≡◌, length};
    ghost use Rattle.zone_journal.specs.Standing.{State};

    ghost Value = { State };

    ghost view = { λ j. record { side = j.side; generation = j.generation; at = j.journal; plan = j.plan } };

    ghost invariant = { λ j. length j.buffer.items ≡ 65536 };
}

impl ZoneJournal {
    /// Opens a store: syncs both disks, and finds the file that decides and the snapshot in it.
    pub fn open<D: Disk>(
        alloc: Global,
        a: &mut D,
        b: &mut D,
    ) -> Result<(ZoneJournal, Vec<u8>), OpenFault>
        ensures gives { (x y : List ℕ) → D.reading a.old ≡ Some x → D.reading b.old ≡ Some y
            → OpenGives result x y }

        // Both files are synced before either is looked at, and from then on a crash leaves what is read.
        ensures syncs { (x y : List ℕ) → D.reading a.old ≡ Some x → D.reading b.old ≡ Some y
            → OpenSyncs D.images result x y a.old a.new b.old b.new }
        ensures reads_on { IfOk result (λ opened. ReadsOn D.reading D.images opened.0 a.new b.new) }

        // It writes nothing.
        ensures a_unwritten { (x : List ℕ) → D.reading a.old ≡ Some x
            → Unwritten D.reading D.images D.moment D.images_since a.old a.new }
        ensures b_unwritten { (y : List ℕ) → D.reading b.old ≡ Some y
            → Unwritten D.reading D.images D.moment D.images_since b.old b.new }

        // It fails only where the count of a disk rose.
        ensures a_counts { D.faults a.old ≤ D.faults a.new }
        ensures b_counts { D.faults b.old ≤ D.faults b.new }
        ensures failed { IsErrOf result OpenFault.DiskFault
            → Rose (D.faults a.old) (D.faults a.new) ⊎ Rose (D.faults b.old) (D.faults b.new) }
    {
        let Ok(buffer) = zeros(alloc, PIECE) else {
            return Err(OpenFault::OutOfMemory);
        };
        let Done::Whole = settle(a) else {
            return Err(OpenFault::DiskFault);
        };
        let Done::Whole = settle(b) else {
            return Err(OpenFault::DiskFault);
        };
        match choose(a, b) {
            Chosen::File(Side::A, generation) => {
                ZoneJournal::begin(alloc, Side::A, generation, buffer, a, b)
            }
            Chosen::File(Side::B, generation) => {
                ZoneJournal::begin(alloc, Side::B, generation, buffer, b, a)
            }
            Chosen::Neither => Err(OpenFault::NotAStore(Side::A, 0)),
            Chosen::DiskFault => Err(OpenFault::DiskFault),
        }
    }

    /// The journal of the file that decides, at its first gate.
    fn begin<D: Disk>(
        alloc: Global,
        side: Side,
        generation: u64,
        buffer: Vec<u8>,
        active: &mut D,
        other: &D,
    ) -> Result<(ZoneJournal, Vec<u8>), OpenFault>
        requires buffer { length buffer.items ≡ 65536 }
        requires active { (x : List ℕ) → D.reading active.old ≡ Some x → Only x (D.images active.old) }
        requires other { (y : List ℕ) → D.reading other.now ≡ Some y → Only y (D.images other.now) }
        requires chosen { IsChosen D.reading side generation active.old other.now }
        ensures gives { (x y : List ℕ) → D.reading active.old ≡ Some x → D.reading other.now ≡ Some y
            → BeginGives side result x y }
        ensures reads_on { IfOk result (λ opened. ReadsWith D.reading D.images opened.0 active.new other.now) }
        ensures side { IfOk result (λ opened. opened.0.side ≡ side) }
        ensures rests { Rests D.reading D.images D.moment D.images_since active.old active.new }
        ensures counts { D.faults active.old ≤ D.faults active.new }
        ensures failed { IsErrOf result OpenFault.DiskFault
            → Rose (D.faults active.old) (D.faults active.new) }
    {
        let _ = other;
        match Journal::begin(alloc, active) {
            Ok((journal, snapshot)) => Ok((
                ZoneJournal {
                    side,
                    generation,
                    journal,
                    plan: None,
                    buffer,
                },
                snapshot,
            )),
            Err(JournalFault::Bad(place)) => Err(OpenFault::NotAStore(side, place)),
            Err(JournalFault::DiskFault) => Err(OpenFault::DiskFault),
            Err(JournalFault::OutOfMemory) => Err(OpenFault::OutOfMemory),
        }
    }

    /// The side of the file that decides.
    pub fn side(&self) -> Side
        ensures { result ≡ self.now.side }
    {
        self.side
    }

    /// The generation of the file that decides.
    pub fn generation(&self) -> u64
        ensures { result ≡ self.now.generation }
    {
        self.generation
    }

    /// The place in the file that decides of the gate that is read next, or of the closed one.
    ///
    /// Asked before `next`, it is the place of the gate of the entry that `next` gives.
    pub fn gate(&self) -> u64
        ensures { result ≡ self.now.at }
    {
        self.journal.gate()
    }

    /// How far the compaction is that is in progress, None where none is.
    pub fn progress(&self) -> Option<Progress>
        requires fits { (p : Plan) → self.now.plan ≡ Some p → PlanFits self.now p }
        ensures { result ≡ progress_of self.now }
    {
        match &self.plan {
            None => None,
            Some(plan) => Some(Progress {
                length: plan.length(self.journal.gate()),
                written: plan.written(),
            }),
        }
    }

    /// The next open entry of the file that decides, None at its first closed gate.
    pub fn next<D: Disk>(
        &mut self,
        alloc: Global,
        a: &mut D,
        b: &mut D,
    ) -> Result<Option<Vec<u8>>, OpenFault>
        requires { IsOn D.reading D.images self.old a.old b.old }
        ensures gives { (s : List ℕ) (es : List (List ℕ)) (x y : List ℕ)
            → D.reading a.old ≡ Some x → D.reading b.old ≡ Some y
            → IsRead self.old.at (active_of self.old.side x y) self.old.generation s es
            → NextGives result self.old self.new (active_of self.old.side x y) s es }
        ensures forward { IfOk result (λ entry. IsSome entry → self.old.at < self.new.at) }
        ensures reads_on { ReadsOn D.reading D.images self.old a.old b.old
            → ReadsOn D.reading D.images self.new a.new b.new }
        ensures at_end { OnNone result (StandsOn D.reading D.images self.new a.new b.new) }

        // Where the journal stands there is no entry more, and it stands on.
        ensures stands { StandsOn D.reading D.images self.old a.old b.old
            → UnlessSome result (StandsOn D.reading D.images self.new a.new b.new) }
        ensures ended { (x y : List ℕ) → D.reading a.old ≡ Some x → D.reading b.old ≡ Some y
            → StandsOn D.reading D.images self.old a.old b.old → IsNoMore result }
        ensures a_rests { Rests D.reading D.images D.moment D.images_since a.old a.new }
        ensures b_rests { Rests D.reading D.images D.moment D.images_since b.old b.new }

        // It fails only where the count of a disk rose.
        ensures a_counts { D.faults a.old ≤ D.faults a.new }
        ensures b_counts { D.faults b.old ≤ D.faults b.new }
        ensures failed { IsErrOf result OpenFault.DiskFault
            → Rose (D.faults a.old) (D.faults a.new) ⊎ Rose (D.faults b.old) (D.faults b.new) }
    {
        match self.side {
            Side::A => self.read_on(alloc, a, b),
            Side::B => self.read_on(alloc, b, a),
        }
    }

    fn read_on<D: Disk>(
        &mut self,
        alloc: Global,
        active: &mut D,
        other: &D,
    ) -> Result<Option<Vec<u8>>, OpenFault>
        requires { ReadsWith D.reading D.images self.old active.old other.now
            ⊎ StandsWith D.reading D.images self.old active.old other.now }
        ensures gives { (s : List ℕ) (es : List (List ℕ)) (x : List ℕ)
            → D.reading active.old ≡ Some x → IsRead self.old.at x self.old.generation s es
            → NextGives result self.old self.new x s es }
        ensures reads_on { ReadsWith D.reading D.images self.old active.old other.now
            → ReadsWith D.reading D.images self.new active.new other.now }
        ensures at_end { OnNone result (StandsWith D.reading D.images self.new active.new other.now) }
        ensures stands { StandsWith D.reading D.images self.old active.old other.now
            → UnlessSome result (StandsWith D.reading D.images self.new active.new other.now) }
        ensures ended { (x : List ℕ) → D.reading active.old ≡ Some x
            → StandsWith D.reading D.images self.old active.old other.now → IsNoMore result }
        ensures forward { IfOk result (λ entry. IsSome entry → self.old.at < self.new.at) }
        ensures side { self.new.side ≡ self.old.side }
        ensures rests { Rests D.reading D.images D.moment D.images_since active.old active.new }
        ensures counts { D.faults active.old ≤ D.faults active.new }
        ensures failed { IsErrOf result OpenFault.DiskFault
            → Rose (D.faults active.old) (D.faults active.new) }
    {
        let _ = other;
        let read = self.journal.next(alloc, active);
        on_side(self.side, read)
    }

    /// Adds an entry to the file that decides.
    pub fn append<D: Disk>(&mut self, a: &mut D, b: &mut D, entry: &Entry) -> Appended
        requires { StandsOn D.reading D.images self.old a.old b.old }

        // At Done the entry is acknowledged: every crash from now on leaves it.
        ensures stands { UnlessAppendFault result (StandsOn D.reading D.images self.new a.new b.new) }
        ensures leaves { (g : ℕ) (s : List ℕ) (es : List (List ℕ)) (x y : List ℕ)
            → D.reading a.old ≡ Some x → D.reading b.old ≡ Some y → OpensPair x y g s es
            → BothRead D.reading a.new b.new (AppendLeaves result g s es entry.now) }
        ensures moves { MovesOn result self.old (length entry.now) self.new }

        // At each moment every image pair opens to the old entries, with the new one or without;
        // where it is Full, without.
        ensures any_moment { (g : ℕ) (s : List ℕ) (es : List (List ℕ)) (x y : List ℕ)
            → D.reading a.old ≡ Some x → D.reading b.old ≡ Some y → OpensPair x y g s es
            → EachPair D.moment D.images_since a.old a.new b.old b.new (MayLeave result g s es entry.now) }

        // Where it is Full both disks are as they were: nothing is asked of them.
        ensures full { OnFull result ((a.new ≡ a.old) × (b.new ≡ b.old)) }

        // The other file is left as it is.
        ensures rests { Rests D.reading D.images D.moment D.images_since
            (other_of self.old.side a.old b.old) (other_of self.old.side a.new b.new) }

        // It is Full exactly by the sums, and fails only where the count of a disk rose.
        ensures cause { HasCause result self.old (length entry.now) }
        ensures a_counts { D.faults a.old ≤ D.faults a.new }
        ensures b_counts { D.faults b.old ≤ D.faults b.new }
        ensures failed { result ≡ Appended.DiskFault
            → Rose (D.faults a.old) (D.faults a.new) ⊎ Rose (D.faults b.old) (D.faults b.new) }
    {
        match self.side {
            Side::A => self.append_to(a, b, entry),
            Side::B => self.append_to(b, a, entry),
        }
    }

    fn append_to<D: Disk>(&mut self, active: &mut D, other: &D, entry: &Entry) -> Appended
        requires { StandsWith D.reading D.images self.old active.old other.now }
        ensures stands { UnlessAppendFault result (StandsWith D.reading D.images self.new active.new other.now) }
        ensures leaves { (g : ℕ) (s : List ℕ) (es : List (List ℕ)) (x : List ℕ)
            → D.reading active.old ≡ Some x → OpensTo x g s es
            → (after : List ℕ) × (D.reading active.new ≡ Some after)
            × FileLeaves result g s es entry.now after }
        ensures moves { MovesOn result self.old (length entry.now) self.new }
        ensures side { self.new.side ≡ self.old.side }
        ensures any_moment { (g : ℕ) (s : List ℕ) (es : List (List ℕ)) (x : List ℕ)
            → D.reading active.old ≡ Some x → OpensTo x g s es
            → LeavesOnly D.moment D.images_since active.old active.new
            (FileMayLeave result g s es entry.now) }
        ensures full { OnFull result (active.new ≡ active.old) }
        ensures cause { HasCause result self.old (length entry.now) }
        ensures counts { D.faults active.old ≤ D.faults active.new }
        ensures failed { result ≡ Appended.DiskFault → Rose (D.faults active.old) (D.faults active.new) }
    {
        let _ = other;
        if let Some(length) = self.refusal(entry) {
            return Appended::Full(length);
        }
        self.journal.append(active, entry)
    }

    /// The length of the file into which an entry does not fit.
    fn refusal(&self, entry: &Entry) -> Option<u64>
        requires within { self.now.at + 1 < 2 ^ 64 }
        requires plan { (p : Plan) → self.now.plan ≡ Some p → PlanFits self.now p }
        ensures { MatchOption result (Fits self.now (length entry.now))
            (λ used. RefusesBy used self.now (length entry.now)) }
    {
        let at = self.journal.gate();
        if !fits(at + 1, entry) {
            return Some(at + 1);
        }
        match &self.plan {
            None => None,
            Some(plan) => {
                let length = plan.length(at);
                if fits(length, entry) {
                    None
                } else {
                    Some(length)
                }
            }
        }
    }

    /// Begins a compaction to this snapshot. It writes nothing.
    pub fn compact_begin(&mut self, snapshot: Vec<u8>) -> Begun
        requires idle { self.old.plan ≡ None }
        requires short { length snapshot.items ≤ 268435435 }
        ensures { Begins result snapshot.items self.old self.new }
    {
        if self.generation == u64::MAX {
            return Begun::GenerationsEnded;
        }
        let from = self.journal.gate();
        self.plan = Some(Compaction::begin(snapshot, from));
        Begun::Begun
    }

    /// Goes on with a compaction by one piece.
    ///
    /// The first piece closes the other file's gate, each next one copies up to 65,536 bytes, and
    /// the last one opens the new file.
    pub fn compact_piece<D: Disk>(&mut self, a: &mut D, b: &mut D) -> Piece
        requires stands { StandsOn D.reading D.images self.old a.old b.old }
        requires in_progress { IsSome self.old.plan }
        ensures stands { UnlessFault result (StandsOn D.reading D.images self.new a.new b.new) }

        // Running with the bytes that are left, and Done exactly where none is.
        ensures moves { (p : Plan) → self.old.plan ≡ Some p → PieceMoves result self.old p self.new }
        ensures leaves { (p : Plan) (g : ℕ) (s : List ℕ) (es since : List (List ℕ)) (x y : List ℕ)
            → self.old.plan ≡ Some p → p.from ≡ length (front g s es)
            → D.reading a.old ≡ Some x → D.reading b.old ≡ Some y → OpensPair x y g s (es ++ since)
            → BothRead D.reading a.new b.new (PieceLeaves result self.old p g s es since) }

        // At each moment every image pair opens to the old file's entries, or from the last piece
        // on to the new one's.
        ensures any_moment { (p : Plan) (g : ℕ) (s : List ℕ) (es since : List (List ℕ)) (x y : List ℕ)
            → self.old.plan ≡ Some p → p.from ≡ length (front g s es)
            → D.reading a.old ≡ Some x → D.reading b.old ≡ Some y → OpensPair x y g s (es ++ since)
            → EachPair D.moment D.images_since a.old a.new b.old b.new (IsOldOrNew self.old p g s es since) }

        // The active file is only read.
        ensures rests { Rests D.reading D.images D.moment D.images_since
            (active_of self.old.side a.old b.old) (active_of self.old.side a.new b.new) }

        // It fails only where the count of a disk rose.
        ensures a_counts { D.faults a.old ≤ D.faults a.new }
        ensures b_counts { D.faults b.old ≤ D.faults b.new }
        ensures failed { result ≡ Piece.DiskFault
            → Rose (D.faults a.old) (D.faults a.new) ⊎ Rose (D.faults b.old) (D.faults b.new) }
    {
        let Some(plan) = self.plan.take() else {
            unreachable!();
        };
        match self.side {
            Side::A => self.piece(plan, a, b),
            Side::B => self.piece(plan, b, a),
        }
    }

    fn piece<D: Disk>(&mut self, plan: Compaction, active: &mut D, other: &mut D) -> Piece
        requires stands { StandsWith D.reading D.images (with_plan self.old plan) active.old other.old }
        requires taken { self.old.plan ≡ None }
        ensures stands { PieceStands D.reading D.images result self.new active.new other.new }
        ensures moves { PieceMoves result self.old plan self.new }
        ensures left { (x y : List ℕ) → D.reading active.old ≡ Some x → D.reading other.old ≡ Some y
            → (since : List (List ℕ)) → IsSince self.old.generation plan x since
            → (now : List ℕ) × (D.reading other.new ≡ Some now) × OtherLeft result self.old plan since now }
        ensures any_moment { (x y : List ℕ) → D.reading active.old ≡ Some x → D.reading other.old ≡ Some y
            → (since : List (List ℕ)) → IsSince self.old.generation plan x since
            → LeavesOnly D.moment D.images_since other.old other.new (YieldsOrOpens self.old plan since) }
        ensures rests { Rests D.reading D.images D.moment D.images_since active.old active.new }
        ensures counts { D.faults active.old ≤ D.faults active.new }
        ensures other_counts { D.faults other.old ≤ D.faults other.new }
        ensures failed { result ≡ Piece.DiskFault → Rose (D.faults active.old) (D.faults active.new)
            ⊎ Rose (D.faults other.old) (D.faults other.new) }
    {
        if plan.place() == 0 {
            return self.close_old(plan, active, other);
        }
        if plan.left(self.journal.gate()) > 2 {
            return self.copy_next(plan, active, other);
        }
        self.open_new(plan, active, other)
    }

    /// Closes the gate of the other file, for a compaction that has just begun.
    fn close_old<D: Disk>(&mut self, plan: Compaction, active: &D, other: &mut D) -> Piece
        requires stands { StandsWith D.reading D.images (with_plan self.old plan) active.now other.old }
        requires taken { self.old.plan ≡ None }
        requires first { plan.next ≡ 0 }
        ensures stands { PieceStands D.reading D.images result self.new active.now other.new }
        ensures moves { PieceMoves result self.old plan self.new }
        ensures left { (y : List ℕ) → D.reading other.old ≡ Some y → (since : List (List ℕ))
            → (now : List ℕ) × (D.reading other.new ≡ Some now) × OtherLeft result self.old plan since now }
        ensures any_moment { (y : List ℕ) → D.reading other.old ≡ Some y → (since : List (List ℕ))
            → LeavesOnly D.moment D.images_since other.old other.new (YieldsOrOpens self.old plan since) }
        ensures counts { D.faults other.old ≤ D.faults other.new }
        ensures failed { result ≡ Piece.DiskFault → Rose (D.faults other.old) (D.faults other.new) }
    {
        let _ = active;
        let at = self.journal.gate();
        let Done::Whole = close_file(other) else {
            return Piece::DiskFault;
        };
        let plan = plan.moved(1);
        let left = plan.left(at);
        self.plan = Some(plan);
        Piece::Running(left)
    }

    /// Copies the next bytes of the file that is built.
    fn copy_next<D: Disk>(&mut self, plan: Compaction, active: &mut D, other: &mut D) -> Piece
        requires stands { StandsWith D.reading D.images (with_plan self.old plan) active.old other.old }
        requires taken { self.old.plan ≡ None }
        requires begun { 1 ≤ plan.next }
        requires more { 2 < left_of self.old plan }
        ensures stands { PieceStands D.reading D.images result self.new active.new other.new }
        ensures moves { PieceMoves result self.old plan self.new }
        ensures left { (y : List ℕ) → D.reading other.old ≡ Some y → (since : List (List ℕ))
            → (now : List ℕ) × (D.reading other.new ≡ Some now) × OtherLeft result self.old plan since now }
        ensures any_moment { (y : List ℕ) → D.reading other.old ≡ Some y → (since : List (List ℕ))
            → LeavesOnly D.moment D.images_since other.old other.new (YieldsOrOpens self.old plan since) }
        ensures rests { Rests D.reading D.images D.moment D.images_since active.old active.new }
        ensures counts { D.faults active.old ≤ D.faults active.new }
        ensures other_counts { D.faults other.old ≤ D.faults other.new }
        ensures failed { result ≡ Piece.DiskFault → Rose (D.faults active.old) (D.faults active.new)
            ⊎ Rose (D.faults other.old) (D.faults other.new) }
    {
        let at = self.journal.gate();
        let next = plan.place();
        let n = (plan.left(at) - 2).min(PIECE as u64);
        let generation = self.generation + 1;
        let buffer = self.buffer.as_mut_slice();
        let piece = &mut buffer[..n as usize];
        let Done::Whole = copy(&plan, generation, at, piece, active, other) else {
            return Piece::DiskFault;
        };
        let plan = plan.moved(next + n);
        let left = plan.left(at);
        self.plan = Some(plan);
        Piece::Running(left)
    }

    /// Opens the file that is built, which decides from then on.
    fn open_new<D: Disk>(&mut self, plan: Compaction, active: &D, other: &mut D) -> Piece
        requires stands { StandsWith D.reading D.images (with_plan self.old plan) active.now other.old }
        requires taken { self.old.plan ≡ None }
        requires last { IsLast self.old plan }
        ensures stands { PieceStands D.reading D.images result self.new active.now other.new }
        ensures moves { PieceMoves result self.old plan self.new }
        ensures left { (x y : List ℕ) → D.reading active.now ≡ Some x → D.reading other.old ≡ Some y
            → (since : List (List ℕ)) → IsSince self.old.generation plan x since
            → (now : List ℕ) × (D.reading other.new ≡ Some now) × OtherLeft result self.old plan since now }
        ensures any_moment { (x y : List ℕ) → D.reading active.now ≡ Some x → D.reading other.old ≡ Some y
            → (since : List (List ℕ)) → IsSince self.old.generation plan x since
            → LeavesOnly D.moment D.images_since other.old other.new (YieldsOrOpens self.old plan since) }
        ensures counts { D.faults other.old ≤ D.faults other.new }
        ensures failed { result ≡ Piece.DiskFault → Rose (D.faults other.old) (D.faults other.new) }
    {
        let _ = active;
        let length = plan.length(self.journal.gate());
        let Done::Whole = open_file(other, plan.place()) else {
            return Piece::DiskFault;
        };
        self.journal = Journal::built(other, length);
        self.side = opposite(self.side);
        self.generation += 1;
        self.plan = None;
        Piece::Done(self.generation)
    }
}

fn opposite(side: Side) -> Side
    ensures { result ≡ opposite side }
{
    match side {
        Side::A => Side::B,
        Side::B => Side::A,
    }
}

/// What a read of the file of this side came to.
fn on_side(
    side: Side,
    read: Result<Option<Vec<u8>>, JournalFault>,
) -> Result<Option<Vec<u8>>, OpenFault>
    ensures { result ≡ on_side side read }
{
    match read {
        Ok(entry) => Ok(entry),
        Err(JournalFault::Bad(place)) => Err(OpenFault::NotAStore(side, place)),
        Err(JournalFault::DiskFault) => Err(OpenFault::DiskFault),
        Err(JournalFault::OutOfMemory) => Err(OpenFault::OutOfMemory),
    }
}
