//! Which sets of zones name which health checks, kept beside the zones.
//!
//! Edits tell which sets went and came. The slot of each of these is looked at again, so that the
//! set that stands in it now counts, and no other set is looked at.

ghost use Rattle.std.specs.Prelude.{◌≡◌, ◌≢◌, ℕ, List, [], Some, IfOk, IsTrue, OnOk, map};
ghost use Rattle.config_zones.specs.Edits.{Edits, IsAllowed};
ghost use Rattle.config_zones.specs.Found.{IsNextZone};
ghost use Rattle.config_zones.specs.Tables.{HaveSlotsApart};
ghost use Rattle.config_zones.specs.ZoneEditRecord.{ZoneEdit};
ghost use Rattle.config_zones.specs.Zones.{AreZones, Zone, placed_in};
ghost use Rattle.check_commands.specs.Counts.{told_at};
ghost use Rattle.check_commands.specs.Uses.{AreUses, AreUsesTo, KnowsUses, LooksAt, TellsCheck};
ghost use Rattle.check_commands.specs.Uses.{TellsUse, slot_of, slot_in};

use crate::named::NamedChecks;
use config_zones::{Delta, ZoneEdit, Zones};
use octets::OutOfMemory;
use std::alloc::Global;
use std::marker::Model;
use zone_table::{RecordSet, SetRef};

/// Which sets of zones name which health checks. Contracts see by the slot of a set the number of
/// the check that it names, 0 for none; or None where a set came for which there was no room.
#[derive(Drop)]
pub struct CheckUses {
    named: NamedChecks,
    /// Whether a set came for which there was no room.
    is_lost: bool,
}

impl Model for CheckUses {
    ghost use Rattle.std.specs.Prelude.{ℕ, List, Option, None, Some, if◌then◌else◌};

    ghost Value = { Option (List ℕ) };

    ghost view = { λ uses. if uses.is_lost then None else Some uses.named };
}

impl CheckUses {
    /// Those of no zones.
    pub fn new(alloc: Global) -> CheckUses
        ensures uses { result ≡ Some [] }
        ensures known { KnowsUses result [] }
    {
        CheckUses {
            named: NamedChecks::new(alloc),
            is_lost: false,
        }
    }

    /// Those of some zones. It goes through the sets of each zone in which any names a check.
    pub fn all_of(alloc: Global, zones: &Zones) -> Result<CheckUses, OutOfMemory>
        ensures { IfOk result (λ uses. (list : List ℕ) × (uses ≡ Some list)
            × AreUses list zones.now.zones) }
    {
        let named = look_at_zones(alloc, zones)?;
        Ok(CheckUses {
            named,
            is_lost: false,
        })
    }

    /// Whether a set names a check. None where this isn't known, and for number 0, which is of no
    /// check. It looks at no set.
    pub fn is_used(&self, check: u32) -> Option<bool>
        ensures { TellsUse self.now check result }
    {
        if self.is_lost {
            return None;
        }
        if check == 0 {
            return None;
        }
        Some(self.named.is_told(check))
    }

    /// Makes room for the sets that an edit puts, which stand in slots of the zones or behind these.
    pub fn reserve(&mut self, zones: &Zones, edit: &ZoneEdit) -> Result<(), OutOfMemory>
        ensures { self.new ≡ self.old }
    {
        let sets = sets_put(edit);
        let slots = zones.slots().saturating_add(sets.len());
        self.named.reserve(slots, count_checked(sets))
    }

    /// Follows an edit that was made of the zones. It takes no memory.
    pub fn note(&mut self, zones: &Zones, delta: &Delta)
        ensures { (before : List Zone) (made : ZoneEdit) → AreZones before
            → HaveSlotsApart before → IsAllowed before made
            → Edits before made zones.now.zones delta.now → KnowsUses self.old before
            → KnowsUses self.new zones.now.zones }
    {
        zones.well_formed();
        zones.slots_apart();
        if !look_at_all(zones, delta.zone, delta.removed.as_slice(), &mut self.named) {
            self.is_lost = true;
            return;
        }
        if !look_at_all(zones, delta.zone, delta.added.as_slice(), &mut self.named) {
            self.is_lost = true;
        }
    }
}

/// The sets that an edit puts.
fn sets_put(edit: &ZoneEdit) -> &[RecordSet] {
    match edit {
        ZoneEdit::Begin { sets, .. } => sets.as_slice(),
        ZoneEdit::Change { add, .. } => add.as_slice(),
        ZoneEdit::End(_) | ZoneEdit::Collections(_) => &[],
    }
}

/// How many of some sets name checks.
fn count_checked(sets: &[RecordSet]) -> usize {
    let mut count: usize = 0;
    for set in sets {
        if set.check.is_some() {
            count = count.saturating_add(1);
        }
    }
    count
}

/// The number of a check, 0 for none.
fn number_of(check: Option<u32>) -> u32
    ensures { result ≡ Rattle.std.specs.Prelude.unwrap_or check 0 }
{
    check.unwrap_or(0)
}

/// The number of the check that the set names which a reference names; 0 where it names none.
fn check_of(zones: &Zones, set: SetRef) -> u32
    ensures { TellsCheck zones.now.zones set result }
{
    zones.well_formed();
    match zones.watch(set) {
        Some(watch) => number_of(watch.check),
        None => 0,
    }
}

/// Looks at the set of a reference. `false` where there is no room for it.
fn look_at(zones: &Zones, set: SetRef, named: &mut NamedChecks) -> bool
    ensures told { IsTrue result → TellsCheck zones.now.zones set (told_at named.new set.slot) }
    ensures others { (other : ℕ) → other ≢ set.slot
        → told_at named.new other ≡ told_at named.old other }
{
    named.put(set.slot, check_of(zones, set))
}

/// Looks at the sets that stand in some slots of a zone. `false` where there is no room for one.
fn look_at_all(zones: &Zones, zone: u32, sets: &[SetRef], named: &mut NamedChecks) -> bool
    ensures { IsTrue result
        → LooksAt zones.now.zones zone (map slot_of sets.now) named.old named.new }
{
    for i in 0..sets.len() {
        let slot = sets[i].slot;
        if !look_at(zones, SetRef { zone, slot }, named) {
            return false;
        }
    }
    true
}

/// Looks at all sets of all zones.
fn look_at_zones(alloc: Global, zones: &Zones) -> Result<NamedChecks, OutOfMemory>
    ensures { IfOk result (λ named. AreUses named zones.now.zones) }
{
    zones.well_formed();
    let mut named = NamedChecks::new(alloc);
    let mut last = 0;
    while let Some(zone) = zones.zone_after(last) {
        look_at_next(zones, zone, &mut named)?;
        last = zone;
    }
    Ok(named)
}

/// Looks at the sets of a zone, after those of the zones before it.
fn look_at_next(zones: &Zones, zone: u32, named: &mut NamedChecks) -> Result<(), OutOfMemory>
    ensures { OnOk result ((last : ℕ) → IsNextZone zones.now.zones last zone
        → AreUsesTo last named.old zones.now.zones
        → AreUsesTo zone named.new zones.now.zones) }
{
    zones.well_formed();
    zones.slots_apart();
    let count = zones.checked(zone);
    if count == 0 {
        return Ok(());
    }
    named.reserve(zones.slots(), count)?;
    if !look_at_zone(zones, zone, named) {
        return Err(OutOfMemory);
    }
    Ok(())
}

/// Looks at the sets of a zone. `false` where there is no room for one.
fn look_at_zone(zones: &Zones, zone: u32, named: &mut NamedChecks) -> bool
    ensures { IsTrue result → LooksAt zones.now.zones zone
        (map slot_in (placed_in zones.now.zones zone)) named.old named.new }
{
    for i in 0..zones.count(zone) {
        let Some(set) = zones.at(zone, i) else {
            unreachable!();
        };
        if !look_at(zones, set, named) {
            return false;
        }
    }
    true
}
