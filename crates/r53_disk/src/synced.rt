//! A write with the sync that makes it stay.

ghost use Rattle.std.specs.Prelude.{◌≡◌, ◌≤◌, ℕ, List, length, Some, None};
ghost use Rattle.octets.specs.Counts.{Rose};
ghost use Rattle.r53_disk.specs.Disk.{Reaches, LeavesOnly};
ghost use Rattle.r53_disk.specs.Synced.{OldOrTorn, WritesSynced};

use crate::{Disk, Done};

/// Writes and syncs.
///
/// After a fault the disk may read as before, as after, or as anything that a crash may leave.
pub fn write_synced<D: Disk>(disk: &mut D, at: u64, from: &[u8]) -> Done
    requires { Reaches (D.reading disk.old) at }

    // Once it is whole, every crash leaves the write.
    ensures kept { (bytes : List ℕ) → D.reading disk.old ≡ Some bytes
        → WritesSynced result bytes at from.now (D.reading disk.new) (D.images disk.new) }
    ensures untold { D.reading disk.old ≡ None → D.reading disk.new ≡ None }

    // At each moment a crash leaves an image from before, with any bytes in the range or without.
    ensures any_moment { (bytes : List ℕ) → D.reading disk.old ≡ Some bytes
        → LeavesOnly D.moment D.images_since disk.old disk.new
        (OldOrTorn at (length from.now) (D.images disk.old)) }

    // It fails only where the disk's count rose.
    ensures counts { D.faults disk.old ≤ D.faults disk.new }
    ensures failed { result ≡ Done.Failed → Rose (D.faults disk.old) (D.faults disk.new) }
{
    match disk.write_at(at, from) {
        Done::Whole => disk.sync(),
        Done::Failed => Done::Failed,
    }
}
