//! What an edit wants of memory.

ghost use Rattle.std.specs.Prelude.{◌≡◌, ◌≤◌, List, length, Option, IfOk, IfSome, OnOk};
ghost use Rattle.std.specs.List.{AllByRecursion};
ghost use Rattle.zone_list.specs.Octets.{HasSpelling, set_octets};
ghost use Rattle.zone_list.specs.Stored.{Kept};
ghost use Rattle.zone_list.specs.Kept.{named_of, zones_in};
ghost use Rattle.zone_list.specs.Steps.{cells_in_all};
ghost use Rattle.zone_list.specs.Zones.{AreListed, placed_in};
ghost use Rattle.zone_table.specs.Needs.{AreSpelled, CanTake, NeedsOfEdit, IsRoomFor, KeepsRoom};
ghost use Rattle.zone_table.specs.Needs.{same_rows};

use crate::edits::{Sets, ZoneEdit};
use octets::OutOfMemory;
use zone_list::{Apexes, RecordSet, StoredZone, cells_for, find_zone, set_len};

/// How much memory an edit wants, each in the unit in which it is used.
#[derive(Clone, Copy)]
pub struct Need {
    /// How many sets it takes away.
    pub removable: usize,
    /// How many sets it puts.
    pub addable: usize,
    /// How many places it wants of a zone that it opens.
    pub places: usize,
    /// How many cells the octets of the sets take that it puts.
    pub cells: usize,
    /// How many octets the longest of them has.
    pub buffer: usize,
}

/// How much an edit wants. None can have as much as a number can't tell.
pub fn need_of(list: &[StoredZone], edit: &ZoneEdit) -> Result<Need, OutOfMemory>
    requires listed { AreListed (named_of list.now) }
    requires spelled { AreSpelled edit.now }
    ensures { IfOk result (λ need. NeedsOfEdit list.now edit.now need) }
{
    match edit {
        ZoneEdit::Begin { sets, .. } => need_to_add(0, sets, sets.len()),
        ZoneEdit::End(zone) => Ok(Need {
            removable: count_sets(list, *zone),
            addable: 0,
            places: 0,
            cells: 0,
            buffer: 0,
        }),
        ZoneEdit::Change { remove, add, .. } => need_to_add(remove.len(), add, 0),
        ZoneEdit::Collections(_) => Ok(Need {
            removable: 0,
            addable: 0,
            places: 0,
            cells: 0,
            buffer: 0,
        }),
    }
}

/// How much it takes to put these sets.
fn need_to_add(removable: usize, add: &Sets, places: usize) -> Result<Need, OutOfMemory>
    requires { AllByRecursion HasSpelling add.now }
    ensures removable { IfOk result (λ need. need.removable ≡ removable) }
    ensures addable { IfOk result (λ need. need.addable ≡ length add.now) }
    ensures places { IfOk result (λ need. need.places ≡ places) }
    ensures cells { IfOk result (λ need. need.cells ≡ cells_in_all add.now) }
    ensures buffer { IfOk result (λ need.
        AllByRecursion (λ set. length (set_octets set) ≤ need.buffer) add.now) }
{
    let Some((cells, longest)) = sizes_of(add.as_slice()) else {
        return Err(OutOfMemory);
    };
    Ok(Need {
        removable,
        addable: add.len(),
        places,
        cells,
        buffer: longest,
    })
}

/// How many cells the octets of the sets take, where a number can tell it, and how many octets the
/// longest of them has.
fn sizes_of(add: &[RecordSet]) -> Option<(usize, usize)>
    requires { AllByRecursion HasSpelling add.now }
    ensures cells { IfSome result (λ sizes. sizes.0 ≡ cells_in_all add.now) }
    ensures longest { IfSome result (λ sizes.
        AllByRecursion (λ set. length (set_octets set) ≤ sizes.1) add.now) }
{
    let mut cells: usize = 0;
    let mut most = 0;
    for set in add {
        let len = set_len(set);
        let Some(more) = cells.checked_add(cells_for(len)) else {
            return None;
        };
        cells = more;
        most = len.max(most);
    }
    Some((cells, most))
}

/// How many sets a zone has.
fn count_sets(list: &[StoredZone], zone: u32) -> usize
    requires { AreListed (named_of list.now) }
    ensures { (slots : List (Option Kept))
        → result ≡ length (placed_in (zones_in slots list.now) zone) }
{
    match find_zone(list, zone) {
        Some(place) => list[place].order().len(),
        None => 0,
    }
}

/// Makes room among the zones for an edit. The zones stay, and room that was there stays too, also
/// where memory runs out.
pub fn reserve_for(list: &mut Vec<StoredZone>, edit: &ZoneEdit) -> Result<(), OutOfMemory>
    requires { AreListed (named_of list.old.items) }
    ensures rows { same_rows list.old.items list.new.items }
    ensures room { OnOk result (IsRoomFor list.new edit.now) }
    ensures kept { KeepsRoom list.old list.new }
{
    match edit {
        ZoneEdit::Begin { .. } => {
            list.reserve(1)?;
            Ok(())
        }
        ZoneEdit::End(_) => Ok(()),
        ZoneEdit::Change { zone, add, .. } => reserve_in(list, *zone, add.len()),
        ZoneEdit::Collections(_) => Ok(()),
    }
}

/// Makes room in a zone for so many sets.
fn reserve_in(list: &mut Vec<StoredZone>, zone: u32, more: usize) -> Result<(), OutOfMemory>
    requires { AreListed (named_of list.old.items) }
    ensures rows { same_rows list.old.items list.new.items }
    ensures room { OnOk result (CanTake list.new.items zone more) }
    ensures kept { KeepsRoom list.old list.new }
{
    match find_zone(list, zone) {
        Some(place) => list[place].reserve(more),
        None => Ok(()),
    }
}

/// Makes room for the name of a zone that begins.
pub fn reserve_name(apexes: &mut Apexes, edit: &ZoneEdit) -> Result<(), OutOfMemory>
    ensures { apexes.new ≡ apexes.old }
{
    match edit {
        ZoneEdit::Begin { .. } => apexes.reserve(),
        _ => Ok(()),
    }
}
