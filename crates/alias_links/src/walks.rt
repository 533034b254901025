//! The first set from which, after a change, aliases would lead on too far.

ghost use Rattle.std.specs.Prelude.{IfOk};
ghost use Rattle.zone_table.specs.Walks.{IsTooDeep};
ghost use Rattle.zone_table.specs.Sets.{IsRising};
ghost use Rattle.zone_table.specs.Edits.{IsAllowed};
ghost use Rattle.zone_table.specs.declared.edits.ZoneEdit.TheVariants.{Change};
ghost use Rattle.alias_links.specs.After.{IsFirstKey, changed_in};

use crate::aliases::aliases_after;
use alias_tree::walk_of_17;
use octets::OutOfMemory;
use record_set::{RecordSet, SetKey};
use std::alloc::Global;
use zone_table::{Scratch, Zones};

/// The key of the first set of a zone, after a change, at which a walk of 17 alias links starts.
/// None where none starts.
pub fn walk_after(
    alloc: Global,
    zones: &Zones,
    zone: u32,
    remove: &[SetKey],
    add: &[RecordSet],
    scratch: &mut Scratch,
) -> Result<Option<SetKey>, OutOfMemory>
    requires { IsAllowed zones.now.zones (Change zone remove.now add.now) }
    ensures { IfOk result (λ key.
        IsFirstKey (IsTooDeep (changed_in zones.now.zones zone remove.now add.now))
        (changed_in zones.now.zones zone remove.now add.now) key) }
{
    zones.well_formed();
    let aliases = aliases_after(alloc, zones, zone, remove, add, scratch)?;
    first_walk(alloc, aliases.as_slice())
}

/// The key of the first of these sets at which a walk of 17 alias links starts.
fn first_walk(alloc: Global, sets: &[RecordSet]) -> Result<Option<SetKey>, OutOfMemory>
    requires { IsRising sets.now }
    ensures { IfOk result (λ key. IsFirstKey (IsTooDeep sets.now) sets.now key) }
{
    match walk_of_17(alloc, sets)? {
        Some(place) => Ok(Some(sets[place].key())),
        None => Ok(None),
    }
}
