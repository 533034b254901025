//! A batch, as an edit of its zone.

ghost use Rattle.std.specs.Prelude.{ℕ, List, IfOk};
ghost use Rattle.std.specs.List.{AllByRecursion};
ghost use Rattle.config_model.specs.Laws.{HasBoundedSet};
ghost use Rattle.batch_names.specs.AllZones.{IsZoneId};
ghost use Rattle.change_batch.specs.LentSets.{sets_lent};
ghost use Rattle.config_model.specs.Zones.{IsRising};
ghost use Rattle.batch_names.specs.Looking.{IsApex};
ghost use Rattle.config_model.specs.Differences.{IsDifference};
ghost use Rattle.batch_edits.specs.Edits.{EditsOrNot, MeetsRules};

use crate::differences::{missing_keys, missing_sets};
use crate::replacing::replacing_edit;
use batch_names::{Scratch, SetKeys, Sets, Zones, named_sets, names_decide, one_apex, sets_of_one};
use change_batch::{Batch, BatchRefusal, lend_all, prepare_lent};
use octets::OutOfMemory;
use record_set::RecordSet;
use std::alloc::Global;

/// What changes in a zone: the keys of the sets that go or give way, and the sets that come, both
/// in zone order.
#[derive(Drop)]
pub struct Edit {
    pub remove: SetKeys,
    pub add: Sets,
}

/// The edit that a batch makes of its zone, or the first refusal of the batch. What the scratch
/// holds afterwards is left open.
///
/// It reads the sets of the names that the batch names. Where the batch is one UPSERT, it first reads
/// the set of its key, or where that isn't there the next one behind the key, which may have another
/// name; a set that is there with the same policy, or with another weight, is all that it reads.
pub fn edit_of(
    alloc: Global,
    zones: &Zones,
    batch: &Batch,
    scratch: &mut Scratch,
) -> Result<Edit, BatchRefusal>
    requires there { IsZoneId zones.now.zones batch.now.zone }
    requires rules { MeetsRules zones.now.zones batch.now.zone }
    requires bounded { AllByRecursion HasBoundedSet batch.now.changes }

    // The zone's sets after the edit are those after the batch, or the refusal is the batch's.
    ensures { (apex : List (List ℕ)) → IsApex zones.now.zones batch.now.zone apex
        → EditsOrNot zones.now.zones batch.now.zone apex batch.now.changes result }
{
    match replacing_edit(alloc, zones, batch, scratch) {
        Ok(Some(edit)) => Ok(edit),
        Ok(None) => edit_by_names(alloc, zones, batch, scratch),
        Err(why) => Err(why),
    }
}

/// The same from the sets of the names that the batch names.
fn edit_by_names(
    alloc: Global,
    zones: &Zones,
    batch: &Batch,
    scratch: &mut Scratch,
) -> Result<Edit, BatchRefusal>
    requires there { IsZoneId zones.now.zones batch.now.zone }
    requires rules { MeetsRules zones.now.zones batch.now.zone }
    requires bounded { AllByRecursion HasBoundedSet batch.now.changes }
    ensures { (apex : List (List ℕ)) → IsApex zones.now.zones batch.now.zone apex
        → EditsOrNot zones.now.zones batch.now.zone apex batch.now.changes result }
{
    names_decide();
    one_apex();
    sets_of_one();
    zones.well_formed();
    let changes = batch.changes.as_slice();
    let Some(apex) = zones.apex(batch.zone) else {
        unreachable!();
    };
    let before = match named_sets(alloc, zones, batch.zone, changes, scratch) {
        Ok(sets) => sets,
        Err(OutOfMemory) => return Err(BatchRefusal::OutOfMemory),
    };
    let after = match prepare_lent(alloc, before.as_slice(), &apex, batch) {
        Ok(sets) => sets,
        Err(why) => return Err(why),
    };
    match difference(alloc, before.as_slice(), after.as_slice(), changes.len()) {
        Ok(edit) => Ok(edit),
        Err(OutOfMemory) => Err(BatchRefusal::OutOfMemory),
    }
}

/// What goes and what comes between some sets and others that are lent, each mostly no more than so
/// many.
fn difference(
    alloc: Global,
    before: &[RecordSet],
    after: &[&RecordSet],
    most: usize,
) -> Result<Edit, OutOfMemory>
    requires before { IsRising before.now }
    requires after { IsRising (sets_lent after.now) }
    ensures { IfOk result (λ edit.
        IsDifference before.now (sets_lent after.now) edit.remove edit.add) }
{
    let lent = lend_all(alloc, before, 0)?;
    lent_difference(alloc, lent.as_slice(), after, most)
}

/// The same where both are lent.
fn lent_difference(
    alloc: Global,
    before: &[&RecordSet],
    after: &[&RecordSet],
    most: usize,
) -> Result<Edit, OutOfMemory>
    requires before { IsRising (sets_lent before.now) }
    requires after { IsRising (sets_lent after.now) }
    ensures { IfOk result (λ edit.
        IsDifference (sets_lent before.now) (sets_lent after.now) edit.remove edit.add) }
{
    let remove = missing_keys(alloc, before, after, most)?;
    let add = missing_sets(alloc, after, before, most)?;
    Ok(Edit {
        remove: SetKeys::from_vec(remove),
        add: Sets::from_vec(add),
    })
}
