//! Making a store with nothing in it, where no file is open.

ghost use Rattle.std.specs.Prelude.{◌≡◌, ◌⊎◌, ◌≤◌, ℕ, List, length, Some, None};
ghost use Rattle.octets.specs.Counts.{Rose};
ghost use Rattle.file_building.specs.Disk.{Only, LeavesOnly};
ghost use Rattle.file_building.specs.Layout.{IsOpen};
ghost use Rattle.zone_journal.specs.Pairs.{Unwritten};
ghost use Rattle.zone_journal.specs.Making.{WritesEmpty, InitGives, InitLeaves, IsNoneOrEmpty};

use crate::start::settle;
use crate::{Init, Side};
use file_building::{Disk, Done, Look, close_file, look, write_synced};

/// A store with nothing in it, from byte 1 to its closed gate.
const EMPTY_STORE: [u8; 33] = [
    0x52, 0x35, 0x33, 0x5a, 0x4a, 0x30, 0x31, // R53ZJ01
    0, 0, 0, 0, 0, 0, 0, 1, // generation 1
    0, 0, 0, 13, // a snapshot of 13 bytes
    2, 0, 0, 0, 1, 0, 0, 0, 1, 0, 0, 0, 0, // version 2, and nothing in it
    0, // a closed gate
];

/// Makes a store with nothing in it on `a`, where no file is open.
///
/// `b` is synced and never written. After a fault it can be run again.
pub fn init<D: Disk>(a: &mut D, b: &mut D) -> Init
    ensures gives { (x y : List ℕ) → D.reading a.old ≡ Some x → D.reading b.old ≡ Some y
        → InitGives D.reading D.images result x y a.new b.new }

    // From the first two syncs on, every crash leaves no open file or the empty store.
    ensures any_moment { (x y : List ℕ) → D.reading a.old ≡ Some x → D.reading b.old ≡ Some y
        → InitLeaves D.reading D.images D.moment D.images_since result x y a.old a.new b.old b.new }
    ensures b_unwritten { (y : List ℕ) → D.reading b.old ≡ Some y
        → Unwritten D.reading D.images D.moment D.images_since b.old b.new }

    // It fails only where the count of a disk rose.
    ensures a_counts { D.faults a.old ≤ D.faults a.new }
    ensures b_counts { D.faults b.old ≤ D.faults b.new }
    ensures failed { result ≡ Init.DiskFault
        → Rose (D.faults a.old) (D.faults a.new) ⊎ Rose (D.faults b.old) (D.faults b.new) }
{
    let Done::Whole = settle(a) else {
        return Init::DiskFault;
    };
    let Done::Whole = settle(b) else {
        return Init::DiskFault;
    };
    match look(a) {
        Look::Open(_) => return Init::AlreadyAStore(Side::A),
        Look::NotOpen => (),
        Look::DiskFault => return Init::DiskFault,
    }
    match look(b) {
        Look::Open(_) => return Init::AlreadyAStore(Side::B),
        Look::NotOpen => (),
        Look::DiskFault => return Init::DiskFault,
    }
    match make_store(a) {
        Done::Whole => Init::Done,
        Done::Failed => Init::DiskFault,
    }
}

/// Writes the empty store over a file that is not open.
fn make_store<D: Disk>(disk: &mut D) -> Done
    requires durable { (bytes : List ℕ) → D.reading disk.old ≡ Some bytes → Only bytes (D.images disk.old) }
    requires shut { (bytes : List ℕ) → D.reading disk.old ≡ Some bytes → ¬ IsOpen bytes }
    ensures made { (bytes : List ℕ) → D.reading disk.old ≡ Some bytes
        → WritesEmpty result bytes (D.reading disk.new) (D.images disk.new) }
    ensures any_moment { (bytes : List ℕ) → D.reading disk.old ≡ Some bytes
        → LeavesOnly D.moment D.images_since disk.old disk.new IsNoneOrEmpty }
    ensures counts { D.faults disk.old ≤ D.faults disk.new }
    ensures failed { result ≡ Done.Failed → Rose (D.faults disk.old) (D.faults disk.new) }
{
    let Done::Whole = close_file(disk) else {
        return Done::Failed;
    };
    let Done::Whole = write_synced(disk, 1, &EMPTY_STORE) else {
        return Done::Failed;
    };
    write_synced(disk, 0, &[1])
}
