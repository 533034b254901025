//! A batch on a zone (API Reference, ChangeResourceRecordSets).

ghost use Rattle.std.specs.Prelude.{◌≡◌, ◌↔◌, ◌∷◌, [], ℕ, IfOk, IsTrue};
ghost use Rattle.std.specs.List.{AllByRecursion};
ghost use Rattle.config_zones.specs.CommandRecord.TheVariants as command;
ghost use Rattle.config_zones.specs.Edited.{hosted_in};
ghost use Rattle.config_zones.specs.Batches.{sets_refusal, store_refusal};
ghost use Rattle.config_zones.specs.Configs.{with_sets};
ghost use Rattle.config_zones.specs.LawsOfConfigModel.{HasBoundedSet};
ghost use Rattle.config_zones.specs.Sound.{Sound};
ghost use Rattle.config_zones.specs.Telling.{first_of};
ghost use Rattle.config_zones.specs.Configured.{TellsEdit, config_of};
ghost use Rattle.alias_links.specs.After.{changed_in, sets_in};
ghost use Rattle.zone_model.specs.Differences.{AreMissing};
ghost use Rattle.config_zones.specs.Zones.{IsZoneId};
ghost use Rattle.config_zones.specs.Edits.{IsAllowed};
ghost use Rattle.config_zones.specs.ZoneEditRecord.TheVariants as edit;

use crate::links::link_refusal;
use crate::names::named_refusal;
use crate::sizes::size_refusal;
use batch_edits::{Batch, edit_of};
use config_zones::{
    Refusal, Scratch, ZoneEdit, Zones, counts_agree, edits_are_told, of_batch, one_apex,
    refusals_are_told, zones_are_found,
};
use health_check::CheckTable;
use octets::OutOfMemory;
use record_set::{RecordSet, SetKey};
use std::alloc::Global;

/// The edit by which a zone comes to have the sets that a batch makes, or why the batch is refused.
/// What the scratch holds afterwards is left open.
pub fn change_zone(
    alloc: Global,
    zones: &Zones,
    checks: &CheckTable,
    batch: &Batch,
    scratch: &mut Scratch,
) -> Result<ZoneEdit, Refusal>
    requires sound { (next : ℕ) × Sound (config_of zones.now checks.now.checks next) }
    requires bounded { AllByRecursion HasBoundedSet batch.now.changes }
    ensures { (next : ℕ) → Sound (config_of zones.now checks.now.checks next)
        → TellsEdit (config_of zones.now checks.now.checks next) (command.Change batch.now)
        zones.now result }
{
    edits_are_told();
    one_apex();
    zones.well_formed();
    zones_are_found();
    if !is_there(zones, batch.zone) {
        return Err(Refusal::NoSuchHostedZone);
    }
    let edit = match edit_of(alloc, zones, batch, scratch) {
        Ok(edit) => edit,
        Err(why) => return Err(of_batch(&why)),
    };
    let remove = edit.remove.as_slice();
    let add = edit.add.as_slice();
    match refusal_of(alloc, zones, checks, batch.zone, remove, add, scratch) {
        Ok(None) => Ok(ZoneEdit::Change {
            zone: batch.zone,
            remove: edit.remove,
            add: edit.add,
        }),
        Ok(Some(why)) => Err(why),
        Err(OutOfMemory) => Err(Refusal::OutOfMemory),
    }
}

/// Whether a zone has the number.
fn is_there(zones: &Zones, zone: u32) -> bool
    ensures { IsTrue result ↔ IsZoneId zones.now.zones zone }
{
    match zones.apex(zone) {
        Some(_) => true,
        None => false,
    }
}

/// The first refusal of a change behind the rules for groups and names: what a set names that isn't
/// there, then aliases that lead nowhere or too far, then too many sets.
fn refusal_of(
    alloc: Global,
    zones: &Zones,
    checks: &CheckTable,
    zone: u32,
    remove: &[SetKey],
    add: &[RecordSet],
    scratch: &mut Scratch,
) -> Result<Option<Refusal>, OutOfMemory>
    requires sound { (next : ℕ) × Sound (config_of zones.now checks.now.checks next) }
    requires allowed { IsAllowed zones.now.zones (edit.Change zone remove.now add.now) }
    requires comes { AreMissing (changed_in zones.now.zones zone remove.now add.now)
        (sets_in zones.now.zones zone) add.now }
    ensures { IfOk result (λ told. told ≡ first_of (
        sets_refusal checks.now.checks.list zones.now.collections.list
        (changed_in zones.now.zones zone remove.now add.now)
        ∷ store_refusal (with_sets (hosted_in zones.now.zones) zone
        (changed_in zones.now.zones zone remove.now add.now))
        ∷ [])) }
{
    counts_agree();
    refusals_are_told();
    zones.well_formed();
    if let Some(why) = named_refusal(checks, zones.collections(), add) {
        return Ok(Some(why));
    }
    let linked = link_refusal(alloc, zones, zone, remove, add, scratch)?;
    if let Some(why) = linked {
        return Ok(Some(why));
    }
    Ok(size_refusal(zones, zone, remove, add, scratch))
}
