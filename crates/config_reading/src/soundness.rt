//! Whether a configuration is sound with a zone more.

ghost use Rattle.std.specs.Prelude.{◌≡◌, ◌≤◌, ◌<◌, ◌+◌, ◌↔◌, IfOk, IsTrue, false, length};
ghost use Rattle.std.specs.List.{AllByRecursion, sum_by};
ghost use Rattle.config_zones.specs.Edited.{hosted_in};
ghost use Rattle.config_zones.specs.Batches.{is_over};
ghost use Rattle.config_zones.specs.Configs.{count_of, octets_of};
ghost use Rattle.config_zones.specs.Sound.{Sound};
ghost use Rattle.config_reading.specs.Reading.{OpensSoundly};
ghost use Rattle.config_zones.specs.Configured.{config_of};
ghost use Rattle.config_zones.specs.Octets.{HasSpelling, set_octets};
ghost use Rattle.config_zones.specs.Zones.{IsOne, Zone};

use config_zones::{ZoneEdit, Zones, counts_agree, is_over, octets_in, refusals_are_told};
use health_check::CheckTable;
use octets::OutOfMemory;
use record_set::RecordSet;
use std::alloc::Global;
use zone_allowed::is_new_zone;
use zone_soundness::is_sound_zone;

/// The most zones of a configuration (Route 53 quotas).
const MAX_ZONES: usize = 500;

/// Whether an edit opens a zone, and the configuration, which is sound, is so with the zone too.
pub fn opens_soundly(
    alloc: Global,
    zones: &Zones,
    checks: &CheckTable,
    next_zone: u32,
    edit: &ZoneEdit,
) -> Result<bool, OutOfMemory>
    requires { Sound (config_of zones.now checks.now.checks next_zone) }
    ensures { IfOk result (λ opens. IsTrue opens
        ↔ OpensSoundly (config_of zones.now checks.now.checks next_zone) edit.now) }
{
    refusals_are_told();
    let ZoneEdit::Begin { zone, name, sets } = edit else {
        return Ok(false);
    };
    let sets = sets.as_slice();
    let sound = is_sound_zone(alloc, checks, zones.collections(), name, sets)?;
    if !sound {
        return Ok(false);
    }
    if !is_last(zones, next_zone, *zone) {
        return Ok(false);
    }
    if !is_new_zone(zones, *zone, name) {
        return Ok(false);
    }
    Ok(has_room(zones, sets))
}

/// Whether the number of a new zone is below the next one, and no zone has a larger one.
fn is_last(zones: &Zones, next_zone: u32, id: u32) -> bool
    ensures { IsTrue result ↔ ((id < next_zone)
        × ((zone : Zone) → IsOne zones.now.zones zone → zone.id ≤ id)) }
{
    id < next_zone && zones.zone_after(id).is_none()
}

/// Whether there is room for one more zone with these sets.
fn has_room(zones: &Zones, sets: &[RecordSet]) -> bool
    requires room { is_over (sum_by count_of (hosted_in zones.now.zones))
        (sum_by octets_of (hosted_in zones.now.zones)) ≡ false }
    requires few { length sets.now ≤ 10000 }
    requires spelled { AllByRecursion HasSpelling sets.now }
    ensures { IsTrue result ↔ ((length (hosted_in zones.now.zones) < 500)
        × (is_over (sum_by count_of (hosted_in zones.now.zones) + length sets.now)
        (sum_by octets_of (hosted_in zones.now.zones)
        + sum_by (λ set. length (set_octets set)) sets.now) ≡ false)) }
{
    counts_agree();
    if zones.len() >= MAX_ZONES {
        return false;
    }
    let octets = octets_in(sets);
    !is_over(
        zones.all_sets() + sets.len() as u64,
        zones.all_octets() + octets,
    )
}
