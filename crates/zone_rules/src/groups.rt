//! Where groups begin.

ghost use Rattle.std.specs.Prelude.{◌≡◌, ◌<◌, ◌⊎◌, length, IsTrue, ◌↔◌};
ghost use Rattle.batch_model.specs.Zones.{AreOneGroup};
ghost use Rattle.batch_model.specs.Zones.{IsRising};
ghost use Rattle.zone_rules.specs.Groups.{IsStart, IsStartBefore};
ghost use Rattle.zone_rules.specs.Lent.{sets_lent};

use crate::lent::set_at;
use batch_model::RecordSet;
use rdata_layout::RType;

/// Whether the two are of one group.
pub fn is_one_group(set: &RecordSet, other: &RecordSet) -> bool
    ensures { IsTrue result ↔ AreOneGroup set.now other.now }
{
    set.name.is_same(&other.name) && is_same_type(set.rtype, other.rtype)
}

/// Whether the two types are one.
fn is_same_type(x: RType, y: RType) -> bool
    ensures { IsTrue result ↔ (x ≡ y) }
{
    x == y
}

/// Where the group of the set at place `i` begins, from where that of the set before it does.
pub fn start_of(sets: &[&RecordSet], start: usize, i: usize) -> usize
    requires rising { IsRising (sets_lent sets.now) }
    requires within { i < length (sets_lent sets.now) }
    requires before { IsStartBefore (sets_lent sets.now) start i }
    ensures start { IsStart (sets_lent sets.now) result i }
    ensures which { (result ≡ start) ⊎ (result ≡ i) }
{
    if i > 0 && is_one_group(set_at(sets, i - 1), set_at(sets, i)) {
        return start;
    }
    i
}
