//! The aliases of a zone after a change, copied in zone order.

ghost use Rattle.std.specs.Prelude.{◌≡◌, ◌<◌, ◌++◌, ◌∷◌, [], length, slice_get, IfOk};
ghost use Rattle.std.specs.Prelude.{OnOk, Some};
ghost use Rattle.record_set.specs.Sets.{key_of};
ghost use Rattle.record_set.specs.declared.sets.RecordSet.{RecordSet};
ghost use Rattle.zone_table.specs.Holding.{IsHolding};
ghost use Rattle.zone_table.specs.Changes.{with_all};
ghost use Rattle.zone_table.specs.Placing.{placed};
ghost use Rattle.zone_table.specs.Sets.{IsRising};
ghost use Rattle.alias_links.specs.After.{changed_in, sets_in};
ghost use Rattle.alias_links.specs.Aliases.{SetIf, aliases_of, is_alias_set, kept_of, stays};
ghost use Rattle.alias_links.specs.Laws.{IsChange};

use crate::keys::{is_alias, is_key_of};
use crate::places::{hold_at, target_at};
use octets::OutOfMemory;
use record_set::{Body, RecordSet, SetKey};
use std::alloc::Global;
use zone_table::{Scratch, Zones, find};

/// The aliases of a zone after a change.
pub fn aliases_after(
    alloc: Global,
    zones: &Zones,
    zone: u32,
    remove: &[SetKey],
    add: &[RecordSet],
    scratch: &mut Scratch,
) -> Result<Vec<RecordSet>, OutOfMemory>
    requires { IsChange (sets_in zones.now.zones zone) remove.now add.now }
    ensures { IfOk result (λ aliases. aliases.items
        ≡ aliases_of (changed_in zones.now.zones zone remove.now add.now)) }
{
    zones.well_formed();
    let mut aliases = kept_aliases(alloc, zones, zone, remove, scratch)?;
    place_aliases(alloc, &mut aliases, add)?;
    Ok(aliases)
}

/// The aliases of a zone that stay.
fn kept_aliases(
    alloc: Global,
    zones: &Zones,
    zone: u32,
    remove: &[SetKey],
    scratch: &mut Scratch,
) -> Result<Vec<RecordSet>, OutOfMemory>
    ensures { IfOk result (λ kept. kept.items
        ≡ kept_of remove.now (sets_in zones.now.zones zone)) }
{
    let mut kept = Vec::new(alloc);
    for i in 0..zones.count(zone) {
        keep_at(zones, zone, i, remove, scratch, &mut kept)?;
    }
    Ok(kept)
}

/// Adds the set at a place of a zone to others, where it is an alias that stays.
fn keep_at(
    zones: &Zones,
    zone: u32,
    i: usize,
    remove: &[SetKey],
    scratch: &mut Scratch,
    kept: &mut Vec<RecordSet>,
) -> Result<(), OutOfMemory>
    requires { i < length (sets_in zones.now.zones zone) }
    ensures { OnOk result ((set : RecordSet)
        → slice_get (sets_in zones.now.zones zone) i ≡ Some set
        → kept.new.items ≡ kept.old.items ++ kept_of remove.now (set ∷ [])) }
{
    let Some(alias) = kept_at(zones, zone, i, remove, scratch) else {
        return Ok(());
    };
    kept.push(alias)?;
    Ok(())
}

/// The set at a place of a zone, where it is an alias that stays.
fn kept_at(
    zones: &Zones,
    zone: u32,
    i: usize,
    remove: &[SetKey],
    scratch: &mut Scratch,
) -> Option<RecordSet>
    requires { i < length (sets_in zones.now.zones zone) }
    ensures { (set : RecordSet) → slice_get (sets_in zones.now.zones zone) i ≡ Some set
        → SetIf (stays remove.now set) set result }
{
    if target_at(zones, zone, i).is_none() {
        return None;
    }
    hold_at(zones, zone, i, scratch);
    let key = scratch.key();
    if is_key_of(remove, &key) {
        return None;
    }
    alias_in(scratch, &key)
}

/// The set that is held and has this key, where it is an alias.
fn alias_in(scratch: &Scratch, key: &SetKey) -> Option<RecordSet>
    requires { IsHolding scratch.now }
    ensures { (set : RecordSet) → scratch.now ≡ Some set → key.now ≡ key_of set
        → SetIf (is_alias_set set) set result }
{
    let Some(alias) = scratch.alias() else {
        return None;
    };
    Some(RecordSet {
        name: key.name,
        rtype: key.rtype,
        routing: scratch.routing(),
        body: Body::Alias {
            target: alias.0,
            evaluate: alias.1,
        },
        check: scratch.check(),
    })
}

/// Places the aliases of some sets among others.
fn place_aliases(
    alloc: Global,
    aliases: &mut Vec<RecordSet>,
    add: &[RecordSet],
) -> Result<(), OutOfMemory>
    requires { IsRising aliases.old.items }
    ensures { OnOk result (aliases.new.items ≡ with_all (aliases_of add.now) aliases.old.items) }
{
    for i in 0..add.len() {
        place_alias(alloc, aliases, &add[i])?;
    }
    Ok(())
}

/// Places a set among others, where it is an alias.
fn place_alias(
    alloc: Global,
    aliases: &mut Vec<RecordSet>,
    set: &RecordSet,
) -> Result<(), OutOfMemory>
    requires { IsRising aliases.old.items }
    ensures { OnOk result
        (aliases.new.items ≡ with_all (aliases_of (set.now ∷ [])) aliases.old.items) }
{
    if !is_alias(set) {
        return Ok(());
    }
    let alias = set.copy(alloc)?;
    place(aliases, alias)?;
    Ok(())
}

/// Places a set among others. The one with its key is gone.
fn place(sets: &mut Vec<RecordSet>, given: RecordSet) -> Result<(), OutOfMemory>
    requires { IsRising sets.old.items }
    ensures { OnOk result (sets.new.items ≡ placed given sets.old.items) }
{
    match find(sets, &given.key()) {
        Ok(place) => sets[place] = given,
        Err(place) => sets.insert(place, given)?,
    }
    Ok(())
}
