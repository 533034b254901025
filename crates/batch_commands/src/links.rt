//! The first alias that leads to no set, and the first set from which aliases lead too far.

ghost use Rattle.std.specs.Prelude.{◌≡◌, ◌∷◌, [], IfOk, option_map, true};
ghost use Rattle.alias_links.specs.After.{changed_in, sets_in};
ghost use Rattle.alias_links.specs.Laws.{NoneHas};
ghost use Rattle.config_zones.specs.Batches.{depth_refusal, first_among, target_refusal};
ghost use Rattle.config_zones.specs.Telling.{first_of};
ghost use Rattle.config_zones.specs.RefusalRecord.TheVariants.{AliasTooDeep};
ghost use Rattle.zone_model.specs.Walks.{HasNoTarget, IsTooDeep};
ghost use Rattle.config_zones.specs.Edits.{IsAllowed};
ghost use Rattle.config_zones.specs.ZoneEditRecord.TheVariants.{Change};

use alias_links::{
    adds_alias, aliases_come, aliases_stay, all_end_walks, all_lead, empties_group, missing_after,
    walk_after,
};
use config_zones::{Refusal, Scratch, Zones, refusals_are_told};
use octets::OutOfMemory;
use record_set::{RecordSet, SetKey};
use std::alloc::Global;

/// The first refusal of a change for where aliases lead.
pub fn link_refusal(
    alloc: Global,
    zones: &Zones,
    zone: u32,
    remove: &[SetKey],
    add: &[RecordSet],
    scratch: &mut Scratch,
) -> Result<Option<Refusal>, OutOfMemory>
    requires allowed { IsAllowed zones.now.zones (Change zone remove.now add.now) }
    requires targets { NoneHas (HasNoTarget (sets_in zones.now.zones zone))
        (sets_in zones.now.zones zone) }
    requires walks { NoneHas (IsTooDeep (sets_in zones.now.zones zone))
        (sets_in zones.now.zones zone) }
    ensures { IfOk result (λ told. told ≡ first_of (
        first_among (target_refusal (changed_in zones.now.zones zone remove.now add.now))
        (changed_in zones.now.zones zone remove.now add.now)
        ∷ first_among (depth_refusal (changed_in zones.now.zones zone remove.now add.now))
        (changed_in zones.now.zones zone remove.now add.now)
        ∷ [])) }
{
    if let Some(why) = target_refusal(zones, zone, remove, add, scratch) {
        return Ok(Some(why));
    }
    depth_refusal(alloc, zones, zone, remove, add, scratch)
}

/// The first alias that would lead to no set.
fn target_refusal(
    zones: &Zones,
    zone: u32,
    remove: &[SetKey],
    add: &[RecordSet],
    scratch: &mut Scratch,
) -> Option<Refusal>
    requires allowed { IsAllowed zones.now.zones (Change zone remove.now add.now) }
    requires targets { NoneHas (HasNoTarget (sets_in zones.now.zones zone))
        (sets_in zones.now.zones zone) }
    ensures { result ≡ first_among
        (target_refusal (changed_in zones.now.zones zone remove.now add.now))
        (changed_in zones.now.zones zone remove.now add.now) }
{
    if are_led(zones, zone, remove, add, scratch) {
        return None;
    }
    match missing_after(zones, zone, remove, add, scratch) {
        Some(key) => Some(Refusal::AliasTargetMissing(key)),
        None => None,
    }
}

/// Whether each alias still leads to a set, told by what goes and what comes alone.
fn are_led(
    zones: &Zones,
    zone: u32,
    remove: &[SetKey],
    add: &[RecordSet],
    scratch: &mut Scratch,
) -> bool
    requires allowed { IsAllowed zones.now.zones (Change zone remove.now add.now) }
    requires targets { NoneHas (HasNoTarget (sets_in zones.now.zones zone))
        (sets_in zones.now.zones zone) }
    ensures { result ≡ true
        → NoneHas (HasNoTarget (changed_in zones.now.zones zone remove.now add.now))
        (changed_in zones.now.zones zone remove.now add.now) }
{
    aliases_come();
    if empties_group(zones, zone, remove, add, scratch) {
        return false;
    }
    all_lead(zones, zone, remove, add, scratch)
}

/// Of so many sets at most that come it is asked whether each alias among them ends walks: each is compared with
/// each.
const FEW: usize = 64;

/// The first set from which aliases would lead on too far.
fn depth_refusal(
    alloc: Global,
    zones: &Zones,
    zone: u32,
    remove: &[SetKey],
    add: &[RecordSet],
    scratch: &mut Scratch,
) -> Result<Option<Refusal>, OutOfMemory>
    requires allowed { IsAllowed zones.now.zones (Change zone remove.now add.now) }
    requires targets { NoneHas (HasNoTarget (sets_in zones.now.zones zone))
        (sets_in zones.now.zones zone) }
    requires walks { NoneHas (IsTooDeep (sets_in zones.now.zones zone))
        (sets_in zones.now.zones zone) }
    ensures { IfOk result (λ told. told ≡ first_among
        (depth_refusal (changed_in zones.now.zones zone remove.now add.now))
        (changed_in zones.now.zones zone remove.now add.now)) }
{
    refusals_are_told();
    if are_short(zones, zone, remove, add) {
        return Ok(None);
    }
    let first = walk_after(alloc, zones, zone, remove, add, scratch)?;
    Ok(too_deep(first))
}

/// Whether no walk of aliases comes to be too long, told by what comes alone: no alias does, or few sets come, and
/// each alias among them ends walks.
fn are_short(zones: &Zones, zone: u32, remove: &[SetKey], add: &[RecordSet]) -> bool
    requires allowed { IsAllowed zones.now.zones (Change zone remove.now add.now) }
    requires targets { NoneHas (HasNoTarget (sets_in zones.now.zones zone))
        (sets_in zones.now.zones zone) }
    requires walks { NoneHas (IsTooDeep (sets_in zones.now.zones zone))
        (sets_in zones.now.zones zone) }
    ensures { result ≡ true
        → NoneHas (IsTooDeep (changed_in zones.now.zones zone remove.now add.now))
        (changed_in zones.now.zones zone remove.now add.now) }
{
    aliases_stay();
    aliases_come();
    if !adds_alias(add) {
        return true;
    }
    if add.len() > FEW {
        return false;
    }
    all_end_walks(zones, zone, add)
}

/// The refusal of the set of this key, if there is one.
fn too_deep(first: Option<SetKey>) -> Option<Refusal>
    ensures { result ≡ option_map AliasTooDeep first }
{
    match first {
        Some(key) => Some(Refusal::AliasTooDeep(key)),
        None => None,
    }
}
