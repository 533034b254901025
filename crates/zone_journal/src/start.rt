//! The first calls on two disks: both are synced, and one of them decides.

ghost use Rattle.std.specs.Prelude.{◌≡◌, ◌⊎◌, ◌≤◌, ℕ, List, Some};
ghost use Rattle.octets.specs.Counts.{Rose};
ghost use Rattle.file_building.specs.Disk.{Only, Rests, Settles};
ghost use Rattle.zone_journal.specs.Pairs.{Unwritten};
ghost use Rattle.zone_journal.specs.Opening.{Chooses};

use crate::Side;
use file_building::{Disk, Done, Look, look};

/// Which file decides.
#[derive(Clone, Copy, PartialEq, Eq)]
pub(crate) enum Chosen {
    /// The file of this side, of this generation.
    File(Side, u64),
    Neither,
    DiskFault,
}

/// Makes what a disk reads as its only image.
pub(crate) fn settle<D: Disk>(disk: &mut D) -> Done
    ensures reading { D.reading disk.new ≡ D.reading disk.old }
    ensures images { (bytes : List ℕ) → D.reading disk.old ≡ Some bytes
        → Settles result bytes (D.images disk.old) (D.images disk.new) }
    ensures unwritten { (bytes : List ℕ) → D.reading disk.old ≡ Some bytes
        → Unwritten D.reading D.images D.moment D.images_since disk.old disk.new }
    ensures only { result ≡ Done.Whole
        → (bytes : List ℕ) → D.reading disk.new ≡ Some bytes → Only bytes (D.images disk.new) }
    ensures counts { D.faults disk.old ≤ D.faults disk.new }
    ensures failed { result ≡ Done.Failed → Rose (D.faults disk.old) (D.faults disk.new) }
{
    disk.sync()
}

/// Looks at both files, `a` first.
pub(crate) fn choose<D: Disk>(a: &mut D, b: &mut D) -> Chosen
    ensures tells { Chooses D.reading result a.new b.new }
    ensures a_rests { Rests D.reading D.images D.moment D.images_since a.old a.new }
    ensures b_rests { Rests D.reading D.images D.moment D.images_since b.old b.new }
    ensures a_counts { D.faults a.old ≤ D.faults a.new }
    ensures b_counts { D.faults b.old ≤ D.faults b.new }
    ensures failed { result ≡ Chosen.DiskFault
        → Rose (D.faults a.old) (D.faults a.new) ⊎ Rose (D.faults b.old) (D.faults b.new) }
{
    match look(a) {
        Look::DiskFault => Chosen::DiskFault,
        Look::NotOpen => match look(b) {
            Look::DiskFault => Chosen::DiskFault,
            Look::NotOpen => Chosen::Neither,
            Look::Open(second) => Chosen::File(Side::B, second),
        },
        Look::Open(first) => match look(b) {
            Look::DiskFault => Chosen::DiskFault,
            Look::NotOpen => Chosen::File(Side::A, first),
            Look::Open(second) => {
                if first < second {
                    Chosen::File(Side::B, second)
                } else {
                    Chosen::File(Side::A, first)
                }
            }
        },
    }
}
