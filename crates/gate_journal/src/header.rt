//! What the first twenty bytes of a file say: whether it is open, and of which generation.

ghost use Rattle.std.specs.Prelude.{◌≡◌, ◌≤◌, ◌↔◌, ℕ, List, length, Some, IsTrue};
ghost use Rattle.octets.specs.Counts.{Rose};
ghost use Rattle.r53_disk.specs.Disk.{Rests};
ghost use Rattle.gate_journal.specs.Layout.{IsOpen};
ghost use Rattle.gate_journal.specs.Read.{LookTells};

use crate::Look;
use crate::read::generation_in;
use r53_disk::{Disk, Done, Size};

/// Looks at a file's gate, its text and its generation.
pub fn look<D: Disk>(disk: &mut D) -> Look
    ensures tells { (bytes : List ℕ) → D.reading disk.old ≡ Some bytes → LookTells result bytes }
    ensures rests { Rests D.reading D.images D.moment D.images_since disk.old disk.new }

    // It fails only where the disk's count rose.
    ensures counts { D.faults disk.old ≤ D.faults disk.new }
    ensures failed { result ≡ Look.DiskFault → Rose (D.faults disk.old) (D.faults disk.new) }
{
    let Size::Bytes(size) = disk.size() else {
        return Look::DiskFault;
    };
    if size < 20 {
        return Look::NotOpen;
    }
    let mut header = [0; 20];
    let Done::Whole = disk.read_at(0, &mut header) else {
        return Look::DiskFault;
    };
    if is_open(&header) {
        Look::Open(generation_in(&header[8..16]))
    } else {
        Look::NotOpen
    }
}

/// Whether a file that begins so is open.
fn is_open(header: &[u8]) -> bool
    requires { 20 ≤ length header.now }
    ensures { IsTrue result ↔ IsOpen header.now }
{
    header[0] == 1 && &header[1..8] == b"R53ZJ01".as_slice()
}
