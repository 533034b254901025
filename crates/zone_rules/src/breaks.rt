//! The first rule that the sets of a zone break together, and the set that breaks it.

ghost use Rattle.batch_model.specs.Zones.{IsRising};
ghost use Rattle.zone_rules.specs.Breaks.{TellsBreak};
ghost use Rattle.zone_rules.specs.Lent.{sets_lent};

use crate::cname::first_conflict;
use crate::findings::look_at_groups;
use crate::lent::set_at;
use batch_model::{BatchRefusal, RecordSet};
use dns_name::Name;

/// Why the sets can't be those of the zone with this apex: the first rule that is broken, and the
/// first set that breaks it.
pub fn first_break(sets: &[&RecordSet], apex: &Name) -> Option<BatchRefusal>
    requires { IsRising (sets_lent sets.now) }
    ensures { TellsBreak (sets_lent sets.now) apex.now result }
{
    let findings = look_at_groups(sets);
    if let Some(i) = findings.mixed {
        return Some(BatchRefusal::MixedPolicies(set_at(sets, i).key()));
    }
    if let Some(name) = first_conflict(sets, apex) {
        return Some(BatchRefusal::CnameConflict(name));
    }
    if let Some(i) = findings.same_place {
        return Some(BatchRefusal::SamePlace(set_at(sets, i).key()));
    }
    if let Some(i) = findings.full {
        return Some(BatchRefusal::GroupFull(set_at(sets, i).name, set_at(sets, i).rtype));
    }
    None
}
