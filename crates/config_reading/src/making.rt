//! Edits of the table of zones, made at once.

ghost use Rattle.std.specs.Prelude.{◌≡◌, OnOk};
ghost use Rattle.config_zones.specs.Edits.{Edits, IsAllowed, collections_after};
ghost use Rattle.config_zones.specs.DeltaRecord.{Delta};

use config_zones::{ZoneEdit, Zones};
use octets::OutOfMemory;
use std::alloc::Global;

/// Makes an edit that is allowed, where there is memory.
pub fn make(alloc: Global, zones: &mut Zones, edit: ZoneEdit) -> Result<(), OutOfMemory>
    requires { IsAllowed zones.old.zones edit }
    ensures edits { OnOk result ((told : Delta) × Edits zones.old.zones edit zones.new.zones told) }
    ensures collections { OnOk result
        (zones.new.collections ≡ collections_after edit zones.old.collections) }
{
    let ready = zones.ready(alloc, edit)?;
    zones.edit(ready);
    Ok(())
}
