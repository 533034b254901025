//! Sets one by one.

ghost use Rattle.std.specs.Prelude.{◌↔◌, IsTrue, None};
ghost use Rattle.std.specs.List.{AllByRecursion};
ghost use Rattle.record_set.specs.Reasons.{IsFirst};
ghost use Rattle.zone_soundness.specs.Parts.{IsSoundSet};

use crate::naming::{has_check, has_places};
use cidr_routing::Collections;
use config_model::{has_spelling, well_formed};
use dns_name::Name;
use health_check::CheckTable;
use record_set::{RecordSet, check_set, one_first_reason};

/// Whether each set is in the zone, is allowed by itself, has a spelling, and names what is there.
pub fn are_sound_sets(
    checks: &CheckTable,
    collections: &Collections,
    apex: &Name,
    sets: &[RecordSet],
) -> bool
    ensures { IsTrue result
        ↔ AllByRecursion (IsSoundSet checks.now.checks.list collections.now.list apex.now)
        sets.now }
{
    for set in sets {
        if !is_sound_set(checks, collections, apex, set) {
            return false;
        }
    }
    true
}

/// Whether a set is so.
fn is_sound_set(
    checks: &CheckTable,
    collections: &Collections,
    apex: &Name,
    set: &RecordSet,
) -> bool
    ensures { IsTrue result
        ↔ IsSoundSet checks.now.checks.list collections.now.list apex.now set.now }
{
    well_formed(set);
    if !set.name.ends_with(apex) {
        return false;
    }
    if !is_allowed(set, apex) {
        return false;
    }
    if !has_spelling(set) {
        return false;
    }
    if !has_check(checks, set.check) {
        return false;
    }
    has_places(collections, &set.routing)
}

/// Whether no reason speaks against a set.
fn is_allowed(set: &RecordSet, apex: &Name) -> bool
    ensures { IsTrue result ↔ IsFirst None set.now apex.now }
{
    one_first_reason();
    match check_set(set, apex) {
        Some(_) => false,
        None => true,
    }
}
