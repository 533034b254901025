//! What is counted of zones and sets.

ghost use Rattle.std.specs.Prelude.{◌≡◌, ◌≤◌, length};
ghost use Rattle.std.specs.List.{AllByRecursion, sum_by};
ghost use Rattle.config_edits.specs.Batches.{is_over};
ghost use Rattle.config_edits.specs.Octets.{HasSpelling, set_octets};

use config_edits::{RecordSet, set_len};

/// The most sets of all zones.
const MAX_SETS: u64 = 100_000;

/// The most octets of the sets of all zones.
const MAX_OCTETS: u64 = 67_108_864;

/// How many octets sets have, which are no more than there may be in a zone.
pub fn octets_in(sets: &[RecordSet]) -> u64
    requires few { length sets.now ≤ 10000 }
    requires spelled { AllByRecursion HasSpelling sets.now }
    ensures octets { result ≡ sum_by (λ set. length (set_octets set)) sets.now }
    ensures few { result ≤ 655360000 }
{
    let mut octets = 0;
    for i in 0..sets.len() {
        octets += set_len(&sets[i]) as u64;
    }
    octets
}

/// Whether so many sets, or so many octets of sets, are too many for all zones.
pub fn is_over(sets: u64, octets: u64) -> bool
    ensures { result ≡ is_over sets octets }
{
    sets > MAX_SETS || octets > MAX_OCTETS
}
