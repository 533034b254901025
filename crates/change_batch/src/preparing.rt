//! A batch made whole, or its first refusal.

ghost use Rattle.std.specs.Prelude.{◌≡◌, IfOk, IfErr};
ghost use Rattle.batch_limits.specs.Batches.{Prepares};
ghost use Rattle.set_search.specs.Zones.{IsZone};
ghost use Rattle.batch_limits.specs.Telling.{with_items};
ghost use Rattle.change_batch.specs.Lent.{with_sets_lent};
ghost use Rattle.zone_rules.specs.Lent.{sets_lent};

use crate::lent::copy_all;
use crate::whole::lend_after;
use batch_limits::{Batch, BatchRefusal, check_limits};
use dns_name::Name;
use octets::OutOfMemory;
use set_search::RecordSet;
use std::alloc::Global;
use zone_rules::first_break;

/// The sets of a zone after a batch, or the first refusal of the batch. The zone's own sets stay as
/// they are.
pub fn prepare(
    alloc: Global,
    sets: &[RecordSet],
    apex: &Name,
    batch: &Batch,
) -> Result<Vec<RecordSet>, BatchRefusal>
    requires { IsZone sets.now apex.now }

    // The sets after the last change, or the first refusal and what it tells. Only want of memory is
    // free.
    ensures answer { Prepares sets.now apex.now batch.now.changes (with_items result) }

    // The sets after it are those of a zone again.
    ensures zone { IfOk result (λ after. IsZone after.items apex.now) }
{
    let after = match prepare_lent(alloc, sets, apex, batch) {
        Ok(after) => after,
        Err(why) => return Err(why),
    };
    match copy_all(alloc, after.as_slice()) {
        Ok(copies) => Ok(copies),
        Err(OutOfMemory) => Err(BatchRefusal::OutOfMemory),
    }
}

/// The same of sets that are lent: from those before the batch, and from its changes. None is
/// copied.
pub fn prepare_lent<'a>(
    alloc: Global,
    sets: &'a [RecordSet],
    apex: &Name,
    batch: &'a Batch,
) -> Result<Vec<&'a RecordSet>, BatchRefusal>
    requires { IsZone sets.now apex.now }
    ensures answer { Prepares sets.now apex.now batch.now.changes (with_sets_lent result) }
    ensures zone { IfOk result (λ after. IsZone (sets_lent after.items) apex.now) }
{
    let changes = batch.changes.as_slice();
    if let Some(why) = check_limits(changes, apex) {
        return Err(why);
    }
    let after = match lend_after(alloc, sets, apex, changes) {
        Ok(after) => after,
        Err(why) => return Err(why),
    };
    if let Some(why) = first_break(after.as_slice(), apex) {
        return Err(why);
    }
    Ok(after)
}
