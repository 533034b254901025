//! A collection after a list of changes.

ghost use Rattle.std.specs.Prelude.{◌≡◌, [], IfErr, IfOk, OnOk, Ok, Some, if◌then◌else◌};
ghost use Rattle.std.specs.List.{list_any};
ghost use Rattle.std.specs.Str.{bytes_eq};
ghost use Rattle.cidr_changes.specs.Changed.{after_changes, change_refusal, changed_collection};
ghost use Rattle.cidr_changes.specs.Changed.{is_unplaced, least, lesser, unplaced, with_locations};
ghost use Rattle.cidr_blocks.specs.Places.{names_of};
ghost use Rattle.cidr_changes.specs.Refusals.{Gives, IsFaultOf};

use crate::changes::CidrChange;
use crate::faults::CidrFault;
use crate::gathering::locations_of;
use crate::rows::{apply, has_bad_length, has_block_in_use, put_all};
use cidr_blocks::{Block, CidrLocation, Collection, Ident, Locations, name_order};
use octets::OutOfMemory;
use std::alloc::Global;
use std::cmp::Ordering;
use std::collections::BTreeMap;

/// The most blocks of a collection.
const MAX_BLOCKS: usize = 1000;

/// The collection after these changes, or the first refusal: change by change a block's length and a
/// block that stands under another location; after the last one too many blocks, and a location in
/// use that has none. Of several of these the least by bytes is told.
///
/// `used` is what the record sets name: collections by their numbers, of which `id` is this one's,
/// and locations, `*` too.
pub fn change_collection(
    alloc: Global,
    collection: &Collection,
    changes: &[CidrChange],
    id: u32,
    used: &[(u32, Ident)],
) -> Result<Collection, CidrFault>
    ensures { Gives result (changed_collection collection.now changes.now id used.now) }
{
    let Ok(mut rows) = in_order(alloc, collection.locations.as_slice()) else {
        return Err(CidrFault::OutOfMemory);
    };
    if let Err(fault) = apply_all(&mut rows, changes) {
        return Err(fault);
    }
    if rows.len() > MAX_BLOCKS {
        return Err(CidrFault::TooManyCidrBlocks);
    }
    let Ok(locations) = locations_of(alloc, &rows) else {
        return Err(CidrFault::OutOfMemory);
    };
    if let Some(name) = least_unplaced(id, &locations, used) {
        return Err(CidrFault::CidrLocationInUse(name));
    }
    Ok(Collection {
        name: collection.name,
        locations: Locations::from_vec(locations),
    })
}

/// The blocks of locations, in their order.
fn in_order(
    alloc: Global,
    locations: &[CidrLocation],
) -> Result<BTreeMap<Block, Ident>, OutOfMemory>
    ensures { IfOk result (λ rows. rows.entries ≡ with_locations locations.now []) }
{
    let mut rows = BTreeMap::new(alloc);
    for location in locations {
        put_all(&mut rows, location.name, location.blocks.as_slice())?;
    }
    Ok(rows)
}

/// Does what the changes say, up to the first refusal.
fn apply_all(rows: &mut BTreeMap<Block, Ident>, changes: &[CidrChange]) -> Result<(), CidrFault>
    ensures ok { OnOk result (after_changes changes.now rows.old.entries ≡ Ok rows.new.entries) }
    ensures err { IfErr result (IsFaultOf (after_changes changes.now rows.old.entries)) }
{
    for change in changes {
        if let Some(fault) = refusal_of(rows, change) {
            return Err(fault);
        }
        if apply(rows, change).is_err() {
            return Err(CidrFault::OutOfMemory);
        }
    }
    Ok(())
}

/// The first refusal of one change.
fn refusal_of(rows: &BTreeMap<Block, Ident>, change: &CidrChange) -> Option<CidrFault>
    ensures { result ≡ change_refusal change.now rows.now.entries }
{
    if has_bad_length(change.blocks.as_slice()) {
        return Some(CidrFault::BlockLength);
    }
    if has_block_in_use(rows, change) {
        return Some(CidrFault::CidrBlockInUse);
    }
    None
}

/// The least location, not `*`, that a set names in the collection and that isn't there.
fn least_unplaced(id: u32, locations: &[CidrLocation], used: &[(u32, Ident)]) -> Option<Ident>
    ensures { result ≡ least (unplaced id locations.now used.now) }
{
    let mut best = None;
    let mut i = used.len();
    while i > 0 {
        i -= 1;
        best = with_used(best, id, locations, &used[i]);
    }
    best
}

/// The least one so far, with what one more set names.
fn with_used(
    best: Option<Ident>,
    id: u32,
    locations: &[CidrLocation],
    used: &(u32, Ident),
) -> Option<Ident>
    ensures { result ≡ (if is_unplaced id locations.now used.now
        then Some (lesser used.now.1 best) else best) }
{
    if !is_unplaced(id, locations, used) {
        return best;
    }
    Some(lesser(used.1, best))
}

/// Whether a set names a location of the collection, not `*`, that isn't there.
fn is_unplaced(id: u32, locations: &[CidrLocation], used: &(u32, Ident)) -> bool
    ensures { result ≡ is_unplaced id locations.now used.now }
{
    used.0 == id && !used.1.is_star() && !has_name(locations, &used.1)
}

/// Whether a location has this name.
fn has_name(locations: &[CidrLocation], name: &Ident) -> bool
    ensures { result ≡ list_any (bytes_eq name.now) (names_of locations.now) }
{
    for location in locations {
        if name.bytes() == location.name.bytes() {
            return true;
        }
    }
    false
}

/// The lesser of two names, by bytes.
fn lesser(name: Ident, other: Option<Ident>) -> Ident
    ensures { result ≡ lesser name other }
{
    let Some(other) = other else {
        return name;
    };
    match name_order(&name, &other) {
        Ordering::Less => name,
        Ordering::Equal => name,
        Ordering::Greater => other,
    }
}
