//! A batch that is one UPSERT of a set that is there, with the same policy or with another weight.
//!
//! Such a set breaks no rule that the zone meets, since the rules see of it no more than its name, its
//! type and its policy without a weight. So no other set of its name is read.

ghost use Rattle.std.specs.Prelude.{◌≡◌, ◌∷◌, [], ℕ, List, Ok, Err, IfOk, IfErr, IfSome, IsTrue};
ghost use Rattle.std.specs.List.{AllByRecursion};
ghost use Rattle.config_model.specs.Laws.{HasBoundedSet};
ghost use Rattle.config_model.specs.Slotted.{sets_of};
ghost use Rattle.batch_names.specs.AllZones.{IsZoneId, placed_in};
ghost use Rattle.batch_names.specs.Looking.{IsApex};
ghost use Rattle.change_batch.specs.ChangeRecord.{Change};
ghost use Rattle.batch_edits.specs.Edits.{EditsOrNot, MeetsRules};
ghost use Rattle.batch_edits.specs.Replacing.{IsReplaced, Swaps, seen};

use crate::editing::Edit;
use crate::sameness::is_equal;
use batch_limits::{Action, Change, check_limits};
use batch_names::{Scratch, SetKeys, Sets, Zones, keyed_set, names_decide, one_apex, sets_of_one};
use change_batch::{Batch, BatchRefusal};
use octets::OutOfMemory;
use record_set::{RecordSet, Routing};
use std::alloc::Global;

/// The edit of a batch that is one UPSERT of a set that is there with the same policy, but for a
/// weight, or none where the batch is another.
pub fn replacing_edit(
    alloc: Global,
    zones: &Zones,
    batch: &Batch,
    scratch: &mut Scratch,
) -> Result<Option<Edit>, BatchRefusal>
    requires there { IsZoneId zones.now.zones batch.now.zone }
    requires rules { MeetsRules zones.now.zones batch.now.zone }
    requires bounded { AllByRecursion HasBoundedSet batch.now.changes }
    ensures edits { IfOk result (λ made. IfSome made (λ edit.
        (apex : List (List ℕ)) → IsApex zones.now.zones batch.now.zone apex
        → EditsOrNot zones.now.zones batch.now.zone apex batch.now.changes (Ok edit))) }
    ensures refused { IfErr result (λ why.
        (apex : List (List ℕ)) → IsApex zones.now.zones batch.now.zone apex
        → EditsOrNot zones.now.zones batch.now.zone apex batch.now.changes (Err why)) }
{
    names_decide();
    one_apex();
    sets_of_one();
    zones.well_formed();
    let changes = batch.changes.as_slice();
    let Some(apex) = zones.apex(batch.zone) else {
        unreachable!();
    };
    let old = match replaced_set(alloc, zones, batch.zone, changes, scratch) {
        Ok(Some(set)) => set,
        Ok(None) => return Ok(None),
        Err(OutOfMemory) => return Err(BatchRefusal::OutOfMemory),
    };
    if let Some(why) = check_limits(changes, &apex) {
        return Err(why);
    }
    match swap(alloc, &old, changes) {
        Ok(edit) => Ok(Some(edit)),
        Err(OutOfMemory) => Err(BatchRefusal::OutOfMemory),
    }
}

/// The set of a zone that gives way to the only change's, where that is an UPSERT with the policy of
/// the set, but for a weight. None where it isn't.
fn replaced_set(
    alloc: Global,
    zones: &Zones,
    zone: u32,
    changes: &[Change],
    scratch: &mut Scratch,
) -> Result<Option<RecordSet>, OutOfMemory>
    ensures { IfOk result (λ found. IfSome found (λ set.
        IsReplaced (sets_of (placed_in zones.now.zones zone)) changes.now set)) }
{
    let [change] = changes else {
        return Ok(None);
    };
    if change.action != Action::Upsert {
        return Ok(None);
    }
    let Some(set) = keyed_set(alloc, zones, zone, &change.set.key(), scratch)? else {
        return Ok(None);
    };
    if !are_seen_alike(&set.routing, &change.set.routing) {
        return Ok(None);
    }
    Ok(Some(set))
}

/// Whether two policies are the same but for a weight.
fn are_seen_alike(policy: &Routing, other: &Routing) -> bool
    ensures { IsTrue result → seen policy.now ≡ seen other.now }
{
    if policy.is_same(other) {
        return true;
    }
    match (policy, other) {
        (Routing::Weighted(ident, _), Routing::Weighted(other_ident, _)) => {
            ident.is_same(other_ident)
        }
        _ => false,
    }
}

/// The edit by which a set gives way to the only change's, or which changes nothing where the two are
/// equal.
fn swap(alloc: Global, old: &RecordSet, changes: &[Change]) -> Result<Edit, OutOfMemory>
    ensures { IfOk result (λ edit. (change : Change) → changes.now ≡ change ∷ []
        → Swaps old.now change.set edit) }
{
    let mut remove = Vec::new(alloc);
    let mut add = Vec::new(alloc);
    if let [change] = changes {
        if !is_equal(old, &change.set) {
            remove.push(old.key())?;
            add.push(change.set.copy(alloc)?)?;
        }
    }
    Ok(Edit {
        remove: SetKeys::from_vec(remove),
        add: Sets::from_vec(add),
    })
}
