//! Reading entries up to the closed gate, and putting one behind it before the gate is opened.

ghost use Rattle.std.specs.Prelude.{◌≡◌, ◌≤◌, ◌<◌, ◌+◌, ◌-◌, ◌++◌, [], ◌∷◌, List, ℕ, length, Some, None, IfOk, IsErrOf, IsSome};
ghost use Rattle.octets.specs.Counts.{Rose};
ghost use Rattle.r53_disk.specs.Disk.{LeavesOnly, Only, Rests};
ghost use Rattle.gate_journal.specs.Layout.{OpensTo, most};
ghost use Rattle.gate_journal.specs.Read.{IsRead, ReadsOn, BeginGives, NextGives, OnNone, UnlessSome, IsNoMore};
ghost use Rattle.gate_journal.specs.Append.{EndsAt, StandsOn, AppendLeaves, MayLeave, MovesOn, HasCause, UnlessFault, OnFull};

use crate::read::{read_byte, read_count, read_whole};
use crate::{Appended, Entry, JournalFault, Look, fits, look};
use octets::zeros;
use r53_disk::{Disk, Done, Size, write_synced};
use std::alloc::Global;
use std::marker::Model;

const OPEN: u8 = 1;

/// A place in the file of a journal: the gate that is read next, or the closed one. It keeps no disk.
#[derive(Drop)]
pub struct Journal {
    at: u64,
}

impl Model for Journal {
    ghost use Rattle.std.specs.Prelude.{ℕ};

    ghost Value = { ℕ };

    ghost view = { λ j. j.at };
}

impl Journal {
    /// A journal of a file that was built whole up to its closed gate, which is the last of these bytes.
    pub fn built<D: Disk>(disk: &D, length: u64) -> Journal
        requires ends { (bytes : List ℕ) → D.reading disk.now ≡ Some bytes → EndsAt (length - 1) bytes }
        requires durable { (bytes : List ℕ) → D.reading disk.now ≡ Some bytes
            → Only bytes (D.images disk.now) }
        requires least { 21 ≤ length }
        requires most { length ≤ most }
        ensures place { result ≡ length - 1 }
        ensures stands { StandsOn D.reading D.images result disk.now }
    {
        let _ = disk;
        Journal { at: length - 1 }
    }

    /// The place of the gate that is read next, or of the closed one.
    pub fn gate(&self) -> u64
        ensures { result ≡ self.now }
    {
        self.at
    }

    /// The journal of an open file, at its first gate, and the snapshot before it.
    pub fn begin<D: Disk>(alloc: Global, disk: &mut D) -> Result<(Journal, Vec<u8>), JournalFault>
        requires { (bytes : List ℕ) → D.reading disk.old ≡ Some bytes → Only bytes (D.images disk.old) }
        ensures gives { (bytes : List ℕ) → D.reading disk.old ≡ Some bytes → BeginGives result bytes }
        ensures reads_on { IfOk result (λ begun. ReadsOn D.reading D.images begun.0 disk.new) }
        ensures rests { Rests D.reading D.images D.moment D.images_since disk.old disk.new }

        // It fails only where the disk's count rose.
        ensures counts { D.faults disk.old ≤ D.faults disk.new }
        ensures failed { IsErrOf result JournalFault.DiskFault
            → Rose (D.faults disk.old) (D.faults disk.new) }
    {
        let Size::Bytes(size) = disk.size() else {
            return Err(JournalFault::DiskFault);
        };
        if size < 20 {
            return Err(JournalFault::Bad(0));
        }
        match look(disk) {
            Look::Open(_) => (),
            Look::NotOpen => return Err(JournalFault::Bad(0)),
            Look::DiskFault => return Err(JournalFault::DiskFault),
        }
        let Some(count) = read_count(disk, 16) else {
            return Err(JournalFault::DiskFault);
        };
        if size - 20 < u64::from(count) {
            return Err(JournalFault::Bad(20));
        }
        let Ok(room) = zeros(alloc, count as usize) else {
            return Err(JournalFault::OutOfMemory);
        };
        let Some(snapshot) = read_whole(disk, 20, room) else {
            return Err(JournalFault::DiskFault);
        };
        let at = 20 + u64::from(count);
        Ok((Journal { at }, snapshot))
    }

    /// The next open entry, None at the first closed gate.
    pub fn next<D: Disk>(
        &mut self,
        alloc: Global,
        disk: &mut D,
    ) -> Result<Option<Vec<u8>>, JournalFault>
        requires { ReadsOn D.reading D.images self.old disk.old }
        ensures gives { (g : ℕ) (s : List ℕ) (es : List (List ℕ)) (bytes : List ℕ)
            → D.reading disk.old ≡ Some bytes → IsRead self.old bytes g s es
            → NextGives result self.old self.new bytes g s es }
        ensures reads_on { ReadsOn D.reading D.images self.new disk.new }
        ensures at_end { OnNone result (StandsOn D.reading D.images self.new disk.new) }

        // It moves on behind an entry alone, and at the closed gate there is none.
        ensures stays { UnlessSome result (self.new ≡ self.old) }
        ensures forward { IfOk result (λ entry. IsSome entry → self.old < self.new) }
        ensures ended { (bytes : List ℕ) → D.reading disk.old ≡ Some bytes → EndsAt self.old bytes
            → IsNoMore result }
        ensures rests { Rests D.reading D.images D.moment D.images_since disk.old disk.new }

        // It fails only where the disk's count rose.
        ensures counts { D.faults disk.old ≤ D.faults disk.new }
        ensures failed { IsErrOf result JournalFault.DiskFault
            → Rose (D.faults disk.old) (D.faults disk.new) }
    {
        let Size::Bytes(size) = disk.size() else {
            return Err(JournalFault::DiskFault);
        };
        if size <= self.at {
            return Err(JournalFault::Bad(self.at));
        }
        let Some(gate) = read_byte(disk, self.at) else {
            return Err(JournalFault::DiskFault);
        };
        if gate != OPEN {
            return Ok(None);
        }
        if size - self.at < 5 {
            return Err(JournalFault::Bad(self.at));
        }
        let Some(count) = read_count(disk, self.at + 1) else {
            return Err(JournalFault::DiskFault);
        };
        if size - self.at - 5 < u64::from(count) {
            return Err(JournalFault::Bad(self.at));
        }
        let Ok(room) = zeros(alloc, count as usize) else {
            return Err(JournalFault::OutOfMemory);
        };
        let Some(entry) = read_whole(disk, self.at + 5, room) else {
            return Err(JournalFault::DiskFault);
        };
        self.at += 5 + u64::from(count);
        Ok(Some(entry))
    }

    /// Adds an entry behind the closed gate, and then opens that gate.
    pub fn append<D: Disk>(&mut self, disk: &mut D, entry: &Entry) -> Appended
        requires { StandsOn D.reading D.images self.old disk.old }

        // At Done the entry is acknowledged: every crash from now on leaves it.
        ensures stands { UnlessFault result (StandsOn D.reading D.images self.new disk.new) }
        ensures leaves { (g : ℕ) (s : List ℕ) (es : List (List ℕ)) (bytes : List ℕ)
            → D.reading disk.old ≡ Some bytes → OpensTo bytes g s es
            → (after : List ℕ) × (D.reading disk.new ≡ Some after)
            × AppendLeaves result g s es entry.now after }
        ensures untold { D.reading disk.old ≡ None → D.reading disk.new ≡ None }
        ensures moves { MovesOn result self.old (length entry.now) self.new }

        // At each moment of the call a crash leaves the old entries, with the new one or without;
        // where it is Full, without.
        ensures any_moment { (g : ℕ) (s : List ℕ) (es : List (List ℕ)) (bytes : List ℕ)
            → D.reading disk.old ≡ Some bytes → OpensTo bytes g s es
            → LeavesOnly D.moment D.images_since disk.old disk.new (MayLeave result g s es entry.now) }

        // Where it is Full the disk is as it was: nothing is asked of it.
        ensures full { OnFull result (disk.new ≡ disk.old) }

        // It is Full exactly by the sum, and fails only where the disk's count rose.
        ensures cause { HasCause result self.old (length entry.now) }
        ensures counts { D.faults disk.old ≤ D.faults disk.new }
        ensures failed { result ≡ Appended.DiskFault → Rose (D.faults disk.old) (D.faults disk.new) }
    {
        let used = self.at + 1;
        if !fits(used, entry) {
            return Appended::Full(used);
        }
        let Done::Whole = write_synced(disk, used, entry.as_written()) else {
            return Appended::DiskFault;
        };
        let Done::Whole = write_synced(disk, self.at, &[OPEN]) else {
            return Appended::DiskFault;
        };
        self.at += 5 + u64::from(entry.length());
        Appended::Done
    }
}
