//! What a store asks of a file: to be read, written and synced, and to say what a crash may leave.

ghost use Rattle.std.specs.Prelude.{◌≡◌, ◌≤◌, ◌+◌, ℕ, List, length, Option, Some, None};
ghost use Rattle.octets.specs.Counts.{Rose};
ghost use Rattle.r53_disk.specs.Disk.{Reaches, Rests, GivesSize, GivesBytes, WriteLeaves, Unsettles, Settles, Elapses};

/// Whether a call of a disk did what it was asked.
#[derive(Clone, Copy, Debug, PartialEq, Eq)]
pub enum Done {
    Whole,
    Failed,
}

/// The number of a disk's bytes.
#[derive(Clone, Copy, Debug, PartialEq, Eq)]
pub enum Size {
    Bytes(u64),
    Failed,
}

/// One file of a store.
///
/// Where it tells its reading, each call says what is read from then on and what a crash may leave.
pub trait Disk {
    /// The bytes that a read gives, where the disk tells them.
    ghost reading: { Self → Option (List ℕ) };

    /// The images: what a crash at this moment may leave.
    ghost images: { Self → List ℕ → Type 0 };

    /// The moment, as a number that never falls.
    ghost moment: { Self → ℕ };

    /// What a crash at some moment from that one on might have left, during a call or between two.
    ghost images_since: { Self → ℕ → List ℕ → Type 0 };

    /// How often it has failed.
    ghost faults: { Self → ℕ };

    /// The number of its bytes.
    fn size(&mut self) -> Size
        ensures size { (bytes : List ℕ) → reading self.old ≡ Some bytes → GivesSize result bytes }
        ensures rests { Rests reading images moment images_since self.old self.new }

        // It fails only where its count rose.
        ensures counts { faults self.old ≤ faults self.new }
        ensures failed { result ≡ Size.Failed → Rose (faults self.old) (faults self.new) };

    /// Fills the slice with the bytes that stand at a place.
    ///
    /// After a read that failed the slice may hold anything.
    fn read_at(&mut self, at: u64, into: &mut [u8]) -> Done
        requires { Reaches (reading self.old) (at + length into.old) }
        ensures bytes { (bytes : List ℕ) → reading self.old ≡ Some bytes
            → GivesBytes result bytes at into.new }
        ensures rests { Rests reading images moment images_since self.old self.new }
        ensures counts { faults self.old ≤ faults self.new }
        ensures failed { result ≡ Done.Failed → Rose (faults self.old) (faults self.new) };

    /// Writes over what is there, and past the end.
    ///
    /// A write that failed frees as much as one that is done, or it tried nothing.
    fn write_at(&mut self, at: u64, from: &[u8]) -> Done
        requires { Reaches (reading self.old) at }
        ensures reading { (bytes : List ℕ) → reading self.old ≡ Some bytes
            → WriteLeaves result bytes at from.now (reading self.new) }
        ensures untold { reading self.old ≡ None → reading self.new ≡ None }
        ensures images { (bytes : List ℕ) → reading self.old ≡ Some bytes
            → Unsettles result at (length from.now) (images self.old) (images self.new) }
        ensures time { Elapses moment images_since images self.old self.new }
        ensures counts { faults self.old ≤ faults self.new }
        ensures failed { result ≡ Done.Failed → Rose (faults self.old) (faults self.new) };

    /// Makes the reading the only image.
    fn sync(&mut self) -> Done
        ensures reading { reading self.new ≡ reading self.old }
        ensures images { (bytes : List ℕ) → reading self.old ≡ Some bytes
            → Settles result bytes (images self.old) (images self.new) }
        ensures time { Elapses moment images_since images self.old self.new }
        ensures counts { faults self.old ≤ faults self.new }
        ensures failed { result ≡ Done.Failed → Rose (faults self.old) (faults self.new) };

    /// Where one disk of a type tells its reading, each does.
    ghost alike: { (disk other : Self) (bytes : List ℕ) → reading disk ≡ Some bytes
        → (told : List ℕ) × (reading other ≡ Some told) };

    /// What it reads as may be what a crash leaves.
    ghost is_image: { (disk : Self) (bytes : List ℕ) → reading disk ≡ Some bytes → images disk bytes };

    /// This moment is one of those since an earlier one.
    ghost counts_now: { (disk : Self) (t : ℕ) (c : List ℕ) → t ≤ moment disk → images disk c
        → images_since disk t c };

    /// Since this moment there is no other.
    ghost only_now: { (disk : Self) (c : List ℕ) → images_since disk (moment disk) c → images disk c };
}
