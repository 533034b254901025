//! The writes of a file that is built on the disk that does not decide.

ghost use Rattle.std.specs.Prelude.{◌≡◌, ◌⊎◌, ◌≤◌, ◌+◌, ◌-◌, ◌<◌, ◌++◌, ◌^◌, ℕ, List, length, take, drop, Some, None};
ghost use Rattle.octets.specs.Counts.{Rose};
ghost use Rattle.gate_journal.specs.Disk.{Reaches, Rests, LeavesOnly, Only, written};
ghost use Rattle.gate_journal.specs.Layout.{inner};
ghost use Rattle.file_building.specs.Building.{IsShut, gate_opened};

use crate::plan::Compaction;
use gate_journal::{Disk, Done, write_synced};

/// Copies the next bytes of the file that is built, and does not sync them.
pub fn copy<D: Disk>(
    plan: &Compaction,
    generation: u64,
    at: u64,
    piece: &mut [u8],
    active: &mut D,
    other: &mut D,
) -> Done
    requires begun { 1 ≤ plan.now.next }
    requires from { plan.now.from ≤ at }
    requires short { length plan.now.snapshot < 2 ^ 32 }
    requires within { length piece.old + (plan.now.next - 1)
        ≤ 19 + length plan.now.snapshot + (at - plan.now.from) }
    requires reaches { Reaches (D.reading active.old) at }
    requires reached { Reaches (D.reading other.old) plan.now.next }
    ensures filled { result ≡ Done.Whole → (x : List ℕ) → D.reading active.old ≡ Some x
        → piece.new ≡ take (length piece.old) (drop (plan.now.next - 1)
        (inner generation plan.now.snapshot ++ drop plan.now.from (take at x))) }
    ensures copied { result ≡ Done.Whole → (y : List ℕ) → D.reading other.old ≡ Some y
        → D.reading other.new ≡ Some (written y plan.now.next piece.new) }
    ensures told { (y : List ℕ) → D.reading other.old ≡ Some y
        → (now : List ℕ) × (D.reading other.new ≡ Some now) }
    ensures untold { D.reading other.old ≡ None → D.reading other.new ≡ None }

    // Behind a closed gate every crash leaves the file shut.
    ensures any_moment { (y : List ℕ) → D.reading other.old ≡ Some y
        → ((c : List ℕ) → D.images other.old c → IsShut c)
        → LeavesOnly D.moment D.images_since other.old other.new IsShut }
    ensures rests { Rests D.reading D.images D.moment D.images_since active.old active.new }
    ensures counts { D.faults active.old ≤ D.faults active.new }
    ensures other_counts { D.faults other.old ≤ D.faults other.new }
    ensures failed { result ≡ Done.Failed → Rose (D.faults active.old) (D.faults active.new)
        ⊎ Rose (D.faults other.old) (D.faults other.new) }
{
    let Done::Whole = plan.fill(generation, at, active, piece) else {
        return Done::Failed;
    };
    other.write_at(plan.next, piece)
}

/// Writes the closed gate behind all else, and opens the file.
pub fn open_file<D: Disk>(other: &mut D, next: u64) -> Done
    requires begun { 1 ≤ next }
    requires reaches { Reaches (D.reading other.old) next }
    ensures opened { (y : List ℕ) → D.reading other.old ≡ Some y → result ≡ Done.Whole
        → (D.reading other.new ≡ Some (gate_opened y next)) × Only (gate_opened y next) (D.images other.new) }
    ensures told { (y : List ℕ) → D.reading other.old ≡ Some y
        → (now : List ℕ) × (D.reading other.new ≡ Some now) }
    ensures untold { D.reading other.old ≡ None → D.reading other.new ≡ None }

    // Every crash leaves the file shut, or open and whole.
    ensures any_moment { (y : List ℕ) → D.reading other.old ≡ Some y → IsShut y
        → ((c : List ℕ) → D.images other.old c → IsShut c)
        → LeavesOnly D.moment D.images_since other.old other.new (λ c. IsShut c ⊎ (c ≡ gate_opened y next)) }
    ensures counts { D.faults other.old ≤ D.faults other.new }
    ensures failed { result ≡ Done.Failed → Rose (D.faults other.old) (D.faults other.new) }
{
    let Done::Whole = write_synced(other, next, &[0]) else {
        return Done::Failed;
    };
    write_synced(other, 0, &[1])
}
