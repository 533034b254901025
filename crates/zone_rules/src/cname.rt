//! The rule that a CNAME set is alone at its name, which is not the apex.

ghost use Rattle.std.specs.Prelude.{◌≡◌, ◌<◌, length, IsTrue, ◌↔◌};
ghost use Rattle.rdata_layout.specs.declared.types.RType.TheVariants.{Cname};
ghost use Rattle.batch_model.specs.Rules.{CnameAlone};
ghost use Rattle.batch_model.specs.Zones.{IsRising};
ghost use Rattle.zone_rules.specs.Breaks.{IsFirstName};
ghost use Rattle.zone_rules.specs.Groups.{IsConflicted, IsOther};
ghost use Rattle.zone_rules.specs.Lent.{sets_lent};

use crate::lent::set_at;
use batch_model::RecordSet;
use dns_name::Name;
use rdata_layout::RType;

/// The name of the first set whose name has a CNAME set beside a set of another type, or a CNAME
/// set at the apex.
pub fn first_conflict(sets: &[&RecordSet], apex: &Name) -> Option<Name>
    requires { IsRising (sets_lent sets.now) }
    ensures { IsFirstName CnameAlone (sets_lent sets.now) apex.now result }
{
    for i in 0..sets.len() {
        if is_conflicted(sets, apex, i) {
            return Some(set_at(sets, i).name);
        }
    }
    None
}

/// Whether the set at the place is a CNAME at the apex, or next to a set of its name and of another
/// type.
fn is_conflicted(sets: &[&RecordSet], apex: &Name, i: usize) -> bool
    requires { i < length (sets_lent sets.now) }
    ensures { IsTrue result ↔ IsConflicted (sets_lent sets.now) apex.now i }
{
    if !is_cname(set_at(sets, i).rtype) {
        return false;
    }
    if set_at(sets, i).name.is_same(apex) {
        return true;
    }
    if i > 0 && is_other(set_at(sets, i - 1), set_at(sets, i)) {
        return true;
    }
    i + 1 < sets.len() && is_other(set_at(sets, i + 1), set_at(sets, i))
}

/// Whether it has the name of the set, and another type than CNAME.
fn is_other(other: &RecordSet, set: &RecordSet) -> bool
    ensures { IsTrue result ↔ IsOther other.now set.now }
{
    !is_cname(other.rtype) && other.name.is_same(&set.name)
}

/// Whether the type is CNAME.
fn is_cname(rtype: RType) -> bool
    ensures { IsTrue result ↔ (rtype ≡ Cname) }
{
    rtype == RType::Cname
}
