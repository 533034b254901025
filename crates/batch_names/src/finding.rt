//! The sets of a zone whose names a batch names, read from a table of zones.

ghost use Rattle.std.specs.Prelude.{◌≡◌, ◌≤◌, length, IfOk, OnOk};
ghost use Rattle.zone_table.specs.Zones.{placed_in};
ghost use Rattle.zone_table.specs.Slotted.{sets_of};
ghost use Rattle.batch_names.specs.Named.{named_in};
ghost use Rattle.batch_names.specs.Starts.{AppendsNamed, ReadsRun};

use crate::held::{hold_at, hold_named, read_held};
use crate::starts::rising_starts;
use batch_model::{Change, RecordSet};
use dns_name::Name;
use octets::OutOfMemory;
use std::alloc::Global;
use zone_table::{Scratch, Zones};

/// Copies of the sets of a zone whose names the changes name, in zone order. There are none where
/// no zone has the number. What the scratch holds afterwards is left open.
///
/// It looks at no other sets but some that the search for a name meets.
pub fn named_sets(
    alloc: Global,
    zones: &Zones,
    zone: u32,
    changes: &[Change],
    scratch: &mut Scratch,
) -> Result<Vec<RecordSet>, OutOfMemory>
    ensures { IfOk result (λ found. found.items
        ≡ named_in changes.now (sets_of (placed_in zones.now.zones zone))) }
{
    zones.well_formed();
    let starts = rising_starts(alloc, zones, zone, changes)?;
    let mut found = Vec::with_capacity(alloc, starts.len())?;
    for start in &starts {
        read_run(alloc, zones, zone, *start, scratch, &mut found)?;
    }
    Ok(found)
}

/// Adds copies of the sets of one name, which begin at a place.
fn read_run(
    alloc: Global,
    zones: &Zones,
    zone: u32,
    start: usize,
    scratch: &mut Scratch,
    found: &mut Vec<RecordSet>,
) -> Result<(), OutOfMemory>
    ensures { OnOk result (ReadsRun (sets_of (placed_in zones.now.zones zone)) start
        found.old.items found.new.items) }
{
    if !hold_at(zones, zone, start, scratch) {
        return Ok(());
    }
    let name = scratch.name();
    read_named(alloc, zones, zone, start, &name, scratch, found)
}

/// Adds copies of the sets that have the name, from a place on to the first that has another.
fn read_named(
    alloc: Global,
    zones: &Zones,
    zone: u32,
    start: usize,
    name: &Name,
    scratch: &mut Scratch,
    found: &mut Vec<RecordSet>,
) -> Result<(), OutOfMemory>
    requires { start ≤ length (sets_of (placed_in zones.now.zones zone)) }
    ensures { OnOk result (AppendsNamed (sets_of (placed_in zones.now.zones zone)) name.now start
        found.old.items found.new.items) }
{
    for place in start..zones.count(zone) {
        if !hold_named(zones, zone, place, name, scratch) {
            return Ok(());
        }
        make_room(zones, zone, place, name, found)?;
        found.push(read_held(alloc, scratch)?)?;
    }
    Ok(())
}

/// Takes memory for all sets that have the name from a place on, where there is room for none, so
/// that those which are there move once.
fn make_room(
    zones: &Zones,
    zone: u32,
    place: usize,
    name: &Name,
    found: &mut Vec<RecordSet>,
) -> Result<(), OutOfMemory>
    ensures { OnOk result (found.new.items ≡ found.old.items) }
{
    if found.len() < found.capacity() {
        return Ok(());
    }
    found.reserve(named_from(zones, zone, place, name))?;
    Ok(())
}

/// How many sets have the name from a place on.
fn named_from(zones: &Zones, zone: u32, start: usize, name: &Name) -> usize {
    let mut many = 0usize;
    for place in start..zones.count(zone) {
        if !zones.has_name(zone, place, name) {
            return many;
        }
        many = many.wrapping_add(1);
    }
    many
}
