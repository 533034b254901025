//! A zone, rule by rule.

ghost use Rattle.std.specs.Prelude.{◌↔◌, ℕ, IfOk, IsTrue};
ghost use Rattle.config_model.specs.Sound.{IsSoundZone};

use crate::placing::is_laid_out;
use crate::setting::are_sound_sets;
use crate::together::are_together;
use cidr_routing::Collections;
use config_model::refusals_are_told;
use dns_name::Name;
use health_check::CheckTable;
use octets::OutOfMemory;
use record_set::RecordSet;
use std::alloc::Global;

/// Whether a zone of this name and of these sets is sound beside these checks and collections,
/// whatever its number.
pub fn is_sound_zone(
    alloc: Global,
    checks: &CheckTable,
    collections: &Collections,
    apex: &Name,
    sets: &[RecordSet],
) -> Result<bool, OutOfMemory>
    ensures { IfOk result (λ is. (id : ℕ) → IsTrue is
        ↔ IsSoundZone checks.now.checks.list collections.now.list
        (record { id = id; apex = apex.now; sets = sets.now })) }
{
    refusals_are_told();
    if !is_laid_out(apex, sets) {
        return Ok(false);
    }
    if !are_sound_sets(checks, collections, apex, sets) {
        return Ok(false);
    }
    are_together(alloc, apex, sets)
}
