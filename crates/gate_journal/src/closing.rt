//! Closing a file's gate, so that nothing in it counts until it is built anew.

ghost use Rattle.std.specs.Prelude.{◌≡◌, ◌≤◌, ℕ, List, Some, None};
ghost use Rattle.octets.specs.Counts.{Rose};
ghost use Rattle.r53_disk.specs.Disk.{Only, LeavesOnly};
ghost use Rattle.gate_journal.specs.Closing.{Closes, IsWholeOrShut};

use crate::read::read_byte;
use r53_disk::{Disk, Done, Size, write_synced};

const OPEN: u8 = 1;

/// Closes the gate of a file, and syncs the file.
///
/// A gate that is closed already is not written: a crash within that write could open it.
pub fn close_file<D: Disk>(disk: &mut D) -> Done
    requires { (bytes : List ℕ) → D.reading disk.old ≡ Some bytes → Only bytes (D.images disk.old) }

    // Once it is whole, every crash leaves the closed file.
    ensures closed { (bytes : List ℕ) → D.reading disk.old ≡ Some bytes
        → Closes result bytes (D.reading disk.new) (D.images disk.new) }
    ensures untold { D.reading disk.old ≡ None → D.reading disk.new ≡ None }

    // At each moment a crash leaves the file as it was, or one that is not open.
    ensures any_moment { (bytes : List ℕ) → D.reading disk.old ≡ Some bytes
        → LeavesOnly D.moment D.images_since disk.old disk.new (IsWholeOrShut bytes) }

    // It fails only where the disk's count rose.
    ensures counts { D.faults disk.old ≤ D.faults disk.new }
    ensures failed { result ≡ Done.Failed → Rose (D.faults disk.old) (D.faults disk.new) }
{
    let Size::Bytes(size) = disk.size() else {
        return Done::Failed;
    };
    if size == 0 {
        return write_synced(disk, 0, &[0]);
    }
    let Some(gate) = read_byte(disk, 0) else {
        return Done::Failed;
    };
    if gate == OPEN {
        return write_synced(disk, 0, &[0]);
    }
    disk.sync()
}
