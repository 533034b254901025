//! The file that a compaction builds: a snapshot, the entries since, and how much is unwritten.

ghost use Rattle.std.specs.Prelude.{◌≡◌, ◌≤◌, ◌<◌, ◌+◌, ◌-◌, ◌++◌, ◌^◌, ℕ, List, length, take, drop, Some};
ghost use Rattle.octets.specs.Counts.{Rose};
ghost use Rattle.gate_journal.specs.Disk.{Reaches, Rests};
ghost use Rattle.gate_journal.specs.Layout.{inner, most};

use crate::parts::{put_part, read_behind};
use byteorder::{BigEndian, ByteOrder};
use gate_journal::{Disk, Done};
use std::marker::Model;

/// A file that is built on the disk that does not decide.
#[derive(Drop)]
pub struct Compaction {
    /// The new file's snapshot.
    pub(crate) snapshot: Vec<u8>,
    /// The place in the active file from which on entries are copied.
    pub(crate) from: u64,
    /// The place of the byte that is written next; 0 until the gate is closed.
    pub(crate) next: u64,
}

impl Model for Compaction {
    ghost use Rattle.file_building.specs.Building.{Plan};

    ghost Value = { Plan };

    ghost view = { λ p. record { snapshot = p.snapshot.items; from = p.from; next = p.next } };
}

impl Compaction {
    /// A compaction to this snapshot of which nothing is written, where the active file has its
    /// closed gate at this place.
    pub fn begin(snapshot: Vec<u8>, from: u64) -> Compaction
        ensures { result ≡ record { snapshot = snapshot.items; from = from; next = 0 } }
    {
        Compaction {
            snapshot,
            from,
            next: 0,
        }
    }

    /// The length of the file that is built, where the active one has its closed gate at this place.
    pub fn length(&self, at: u64) -> u64
        requires from { self.now.from ≤ at }
        requires fits { 21 + length self.now.snapshot + (at - self.now.from) < 2 ^ 64 }
        ensures { result ≡ 21 + length self.now.snapshot + (at - self.now.from) }
    {
        21 + self.snapshot.len() as u64 + (at - self.from)
    }

    /// The place of the byte that is written next; 0 until the gate is closed.
    pub fn place(&self) -> u64
        ensures { result ≡ self.now.next }
    {
        self.next
    }

    /// How many bytes of it are written. The file gate counts as unwritten.
    pub fn written(&self) -> u64
        ensures { result ≡ self.now.next - 1 }
    {
        self.next.saturating_sub(1)
    }

    /// The same, with the next byte at this place.
    pub fn moved(self, next: u64) -> Compaction
        ensures { result ≡ record self { next = next } }
    {
        Compaction {
            snapshot: self.snapshot,
            from: self.from,
            next,
        }
    }

    /// How many bytes of it are unwritten.
    pub fn left(&self, at: u64) -> u64
        requires from { self.now.from ≤ at }
        requires fits { 21 + length self.now.snapshot + (at - self.now.from) < 2 ^ 64 }
        requires next { self.now.next + 1 ≤ 21 + length self.now.snapshot + (at - self.now.from) }
        ensures { result ≡ 21 + length self.now.snapshot + (at - self.now.from) - (self.now.next - 1) }
    {
        self.length(at) - self.next.saturating_sub(1)
    }

    /// Fills a piece with the bytes of the file that is built, from the one that is written next on.
    pub fn fill<D: Disk>(&self, generation: u64, at: u64, active: &mut D, piece: &mut [u8]) -> Done
        requires begun { 1 ≤ self.now.next }
        requires from { self.now.from ≤ at }
        requires short { length self.now.snapshot < 2 ^ 32 }
        requires within { length piece.old + (self.now.next - 1)
            ≤ 19 + length self.now.snapshot + (at - self.now.from) }
        requires reaches { Reaches (D.reading active.old) at }
        ensures bytes { result ≡ Done.Whole → (x : List ℕ) → D.reading active.old ≡ Some x
            → piece.new ≡ take (length piece.old) (drop (self.now.next - 1)
            (inner generation self.now.snapshot ++ drop self.now.from (take at x))) }
        ensures rests { Rests D.reading D.images D.moment D.images_since active.old active.new }
        ensures counts { D.faults active.old ≤ D.faults active.new }
        ensures failed { result ≡ Done.Failed → Rose (D.faults active.old) (D.faults active.new) }
    {
        let _ = at;
        let mut number = [0; 8];
        BigEndian::write_u64(&mut number, generation);
        let mut count = [0; 4];
        BigEndian::write_u32(&mut count, self.snapshot.len() as u32);
        let in_text = self.next - 1;
        let text_end = put_part(piece, 0, b"R53ZJ01", in_text);
        let in_number = in_text.saturating_sub(7);
        let number_end = put_part(piece, text_end, &number, in_number);
        let in_count = in_number.saturating_sub(8);
        let count_end = put_part(piece, number_end, &count, in_count);
        let in_snapshot = in_count.saturating_sub(4);
        let snapshot_end = put_part(piece, count_end, &self.snapshot, in_snapshot);
        let in_entries = in_snapshot.saturating_sub(self.snapshot.len() as u64);
        read_behind(active, self.from + in_entries, piece, snapshot_end)
    }
}
