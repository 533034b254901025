//! The sets of a zone together: the rules for groups and names, and where aliases lead.

ghost use Rattle.std.specs.Prelude.{◌↔◌, IfOk, IsTrue};
ghost use Rattle.zone_rules.specs.Lent.{sets_lent};
ghost use Rattle.zone_rules.specs.Rules.{MeetsAll, rules};
ghost use Rattle.config_model.specs.Told.{NoSet};
ghost use Rattle.config_model.specs.Walks.{HasNoTarget, IsTooDeep};
ghost use Rattle.config_model.specs.Zones.{IsRising};
ghost use Rattle.zone_soundness.specs.Parts.{AreTogether};

use alias_tree::{missing_target, walk_of_17};
use dns_name::Name;
use octets::OutOfMemory;
use record_set::RecordSet;
use std::alloc::Global;
use zone_rules::{first_break, lend_all};

/// Whether the sets meet the rules of a zone together, and aliases lead to sets and not too far.
pub fn are_together(alloc: Global, apex: &Name, sets: &[RecordSet]) -> Result<bool, OutOfMemory>
    requires { IsRising sets.now }
    ensures { IfOk result (λ are. IsTrue are ↔ AreTogether apex.now sets.now) }
{
    if !meet_rules(alloc, sets, apex)? {
        return Ok(false);
    }
    if !are_led(sets) {
        return Ok(false);
    }
    are_shallow(alloc, sets)
}

/// Whether they meet the rules for groups and names.
fn meet_rules(alloc: Global, sets: &[RecordSet], apex: &Name) -> Result<bool, OutOfMemory>
    requires { IsRising sets.now }
    ensures { IfOk result (λ meet. IsTrue meet ↔ MeetsAll rules sets.now apex.now) }
{
    let lent = lend_all(alloc, sets, 0)?;
    Ok(meet_all(lent.as_slice(), apex))
}

/// The same of sets that are lent.
fn meet_all(sets: &[&RecordSet], apex: &Name) -> bool
    requires { IsRising (sets_lent sets.now) }
    ensures { IsTrue result ↔ MeetsAll rules (sets_lent sets.now) apex.now }
{
    match first_break(sets, apex) {
        Some(_) => false,
        None => true,
    }
}

/// Whether each alias leads to a set.
fn are_led(sets: &[RecordSet]) -> bool
    requires { IsRising sets.now }
    ensures { IsTrue result ↔ NoSet (HasNoTarget sets.now) sets.now }
{
    match missing_target(sets) {
        Some(_) => false,
        None => true,
    }
}

/// Whether no aliases lead too far.
fn are_shallow(alloc: Global, sets: &[RecordSet]) -> Result<bool, OutOfMemory>
    requires { IsRising sets.now }
    ensures { IfOk result (λ are. IsTrue are ↔ NoSet (IsTooDeep sets.now) sets.now) }
{
    match walk_of_17(alloc, sets)? {
        Some(_) => Ok(false),
        None => Ok(true),
    }
}
