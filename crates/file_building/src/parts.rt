//! The bytes of a file that is built, part by part.

ghost use Rattle.std.specs.Prelude.{◌≡◌, ◌≤◌, ◌+◌, ◌-◌, ◌++◌, ℕ, List, length, take, drop, Some};
ghost use Rattle.octets.specs.Counts.{Rose};
ghost use Rattle.gate_journal.specs.Disk.{Reaches, Rests};

use gate_journal::{Disk, Done};
use octets::{behind, front, put_at};

/// Puts what there is room for of a part of a file into a piece of that file, of which so many
/// bytes are filled.
///
/// `skip` is how many bytes of this part and of all that follows stand before the piece.
pub(crate) fn put_part(piece: &mut [u8], filled: usize, part: &[u8], skip: u64) -> usize
    requires { filled ≤ length piece.old }
    ensures within { result ≤ length piece.old }

    // What is left to fill comes from what follows the part.
    ensures room { (m : ℕ) → (length piece.old - filled) + skip ≤ length part.now + m
        → (length piece.old - result) + (skip - length part.now) ≤ m }
    ensures bytes { (more : List ℕ)
        → take filled piece.old ++ take (length piece.old - filled) (drop skip (part.now ++ more))
        ≡ take result piece.new
        ++ take (length piece.old - result) (drop (skip - length part.now) more) }
{
    let rest = behind(part, part.len().min(skip as usize));
    let count = rest.len().min(piece.len() - filled);
    put_at(piece, filled, front(rest, count));
    filled + count
}

/// Fills what is left of a piece with the bytes that stand at a place of a disk.
pub(crate) fn read_behind<D: Disk>(disk: &mut D, at: u64, piece: &mut [u8], filled: usize) -> Done
    requires within { filled ≤ length piece.old }
    requires reaches { Reaches (D.reading disk.old) (at + (length piece.old - filled)) }
    ensures bytes { result ≡ Done.Whole → (bytes : List ℕ) → D.reading disk.old ≡ Some bytes
        → piece.new ≡ take filled piece.old ++ take (length piece.old - filled) (drop at bytes) }
    ensures rests { Rests D.reading D.images D.moment D.images_since disk.old disk.new }
    ensures counts { D.faults disk.old ≤ D.faults disk.new }
    ensures failed { result ≡ Done.Failed → Rose (D.faults disk.old) (D.faults disk.new) }
{
    disk.read_at(at, &mut piece[filled..])
}
