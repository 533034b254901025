//! All changes of a batch, applied one after another.

ghost use Rattle.std.specs.Prelude.{◌≡◌, IfOk, IfErr, Err};
ghost use Rattle.batch_limits.specs.Batches.{IsWithinLimits, Leaves, Prepares};
ghost use Rattle.set_search.specs.Zones.{IsZone};
ghost use Rattle.zone_rules.specs.Lent.{sets_lent};

use crate::applying::apply;
use crate::near::Near;
use batch_limits::{BatchRefusal, Change};
use dns_name::Name;
use octets::OutOfMemory;
use set_search::RecordSet;
use std::alloc::Global;
use zone_rules::lend_all;

/// The sets after the changes, lent from those before and from the changes, or the refusal of the
/// first change that is refused.
pub fn lend_after<'a>(
    alloc: Global,
    sets: &'a [RecordSet],
    apex: &Name,
    changes: &'a [Change],
) -> Result<Vec<&'a RecordSet>, BatchRefusal>
    requires zone { IsZone sets.now apex.now }
    requires limits { IsWithinLimits changes.now apex.now }
    ensures leaves { IfOk result (λ after.
        Leaves sets.now apex.now changes.now (sets_lent after.items)) }
    ensures zone { IfOk result (λ after. IsZone (sets_lent after.items) apex.now) }
    ensures refused { IfErr result (λ why. Prepares sets.now apex.now changes.now (Err why)) }
{
    let mut after = match lend_all(alloc, sets, changes.len()) {
        Ok(lent) => lent,
        Err(OutOfMemory) => return Err(BatchRefusal::OutOfMemory),
    };
    let mut near = Near::new();
    for (i, change) in changes.iter().enumerate() {
        match apply(&mut after, apex, change, &mut near) {
            Ok(()) => {}
            Err(why) => return Err(why.at(i)),
        }
    }
    Ok(after)
}
