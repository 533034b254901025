//! What a command makes of a list of collections. The list itself stays.

ghost use Rattle.std.specs.Prelude.{◌≡◌, ◌+◌, ◌<◌, ◌||◌, map, IfErr, IfOk, IsOk, IsSome, Ok};
ghost use Rattle.cidr_commands.specs.declared.command.CidrCommand.TheVariants.{Change, Delete};
ghost use Rattle.cidr_commands.specs.Commands.{IsFaultWhere, MayWant};
ghost use Rattle.cidr_commands.specs.Commands.{outcome, any_has_block, create_answer};
ghost use Rattle.cidr_commands.specs.Commands.{create_refusal, is_there, is_used};
ghost use Rattle.cidr_commands.specs.Commands.{with_locations_at, without};
ghost use Rattle.cidr_commands.specs.Stored.{Stored, collection_with};

use crate::command::CidrCommand;
use crate::finding::place_of;
use cidr_changes::{
    Changes, CidrFault, CidrLocation, Collection, Ident, Locations, change_collection,
};
use octets::OutOfMemory;
use std::alloc::Global;

/// The most collections.
const MAX_COLLECTIONS: usize = 100;

/// The last number, which no collection gets.
const LAST: u32 = 4_294_967_295;

/// The next number and the collections after a command, or its first refusal.
///
/// Memory is wanted only where the command isn't refused, or changes a collection that is there.
pub fn carry_out(
    alloc: Global,
    next: u32,
    list: &[(u32, Collection)],
    command: &CidrCommand,
    used: &[(u32, Ident)],
) -> Result<(u32, Vec<(u32, Collection)>), CidrFault>
    ensures ok { IfOk result (λ after.
        outcome (record { next = next; list = list.now }) command.now used.now
        ≡ Ok (record { next = after.0; list = after.1.items })) }
    ensures err { IfErr result (IsFaultWhere
        (MayWant (record { next = next; list = list.now }) command.now used.now)
        (outcome (record { next = next; list = list.now }) command.now used.now)) }
{
    match command {
        CidrCommand::Create(name) => match create(alloc, next, list, *name) {
            Ok(after) => Ok((next + 1, after)),
            Err(fault) => Err(fault),
        },
        CidrCommand::Change { id, changes } => {
            match change(alloc, next, list, *id, changes, used) {
                Ok(after) => Ok((next, after)),
                Err(fault) => Err(fault),
            }
        }
        CidrCommand::Delete(id) => match delete(alloc, next, list, *id, used) {
            Ok(after) => Ok((next, after)),
            Err(fault) => Err(fault),
        },
    }
}

/// The collections with a new one.
fn create(
    alloc: Global,
    next: u32,
    list: &[(u32, Collection)],
    name: Ident,
) -> Result<Vec<(u32, Collection)>, CidrFault>
    ensures ok { IfOk result (λ v.
        create_answer (record { next = next; list = list.now }) name
        ≡ Ok (record { next = next + 1; list = v.items })) }
    ensures last { IfOk result (λ _. next < 4294967295) }
    ensures err { IfErr result (IsFaultWhere
        (IsOk (create_answer (record { next = next; list = list.now }) name))
        (create_answer (record { next = next; list = list.now }) name)) }
{
    if let Some(fault) = create_refusal(next, list, &name) {
        return Err(fault);
    }
    let Ok(mut after) = copies(alloc, list) else {
        return Err(CidrFault::OutOfMemory);
    };
    let collection = Collection {
        name,
        locations: Locations::from_vec(Vec::new(alloc)),
    };
    if after.push((next, collection)).is_err() {
        return Err(CidrFault::OutOfMemory);
    }
    Ok(after)
}

/// The first refusal of a new collection.
fn create_refusal(next: u32, list: &[(u32, Collection)], name: &Ident) -> Option<CidrFault>
    ensures { result ≡ create_refusal (record { next = next; list = list.now }) name.now }
{
    if is_there(list, name) {
        return Some(CidrFault::CollectionExists);
    }
    if list.len() >= MAX_COLLECTIONS {
        return Some(CidrFault::TooManyCidrCollections);
    }
    if next == LAST {
        return Some(CidrFault::IdsEnded);
    }
    None
}

/// Whether a collection has this name.
fn is_there(list: &[(u32, Collection)], name: &Ident) -> bool
    ensures { result ≡ is_there name.now list.now }
{
    for held in list {
        if held.1.name.bytes() == name.bytes() {
            return true;
        }
    }
    false
}

/// A copy of each collection.
fn copies(alloc: Global, list: &[(u32, Collection)]) -> Result<Vec<(u32, Collection)>, OutOfMemory>
    ensures { IfOk result (λ v. v.items ≡ list.now) }
{
    let mut v = Vec::new(alloc);
    for held in list {
        v.push((held.0, held.1.copy(alloc)?))?;
    }
    Ok(v)
}

/// The collections with changes of one.
fn change(
    alloc: Global,
    next: u32,
    list: &[(u32, Collection)],
    id: u32,
    changes: &Changes,
    used: &[(u32, Ident)],
) -> Result<Vec<(u32, Collection)>, CidrFault>
    ensures ok { IfOk result (λ v.
        outcome (record { next = next; list = list.now }) (Change id changes.now) used.now
        ≡ Ok (record { next = next; list = v.items })) }
    ensures err { IfErr result (IsFaultWhere (IsSome (collection_with id list.now))
        (outcome (record { next = next; list = list.now }) (Change id changes.now) used.now)) }
{
    let Some(place) = place_of(list, id) else {
        return Err(CidrFault::NoSuchCidrCollection(id));
    };
    match change_collection(alloc, &list[place].1, changes.as_slice(), id, used) {
        Ok(collection) => match replaced(alloc, list, id, &collection.locations) {
            Ok(after) => Ok(after),
            Err(_) => Err(CidrFault::OutOfMemory),
        },
        Err(fault) => Err(fault),
    }
}

/// The collections with these locations at a number.
fn replaced(
    alloc: Global,
    list: &[(u32, Collection)],
    id: u32,
    locations: &Locations,
) -> Result<Vec<(u32, Collection)>, OutOfMemory>
    ensures { IfOk result (λ v. v.items ≡ map (with_locations_at id locations.now) list.now) }
{
    let mut v = Vec::new(alloc);
    for held in list {
        v.push((held.0, with_locations_at(alloc, held, id, locations)?))?;
    }
    Ok(v)
}

/// A copy of a collection, with these locations where it has the number.
fn with_locations_at(
    alloc: Global,
    held: &(u32, Collection),
    id: u32,
    locations: &Locations,
) -> Result<Collection, OutOfMemory>
    ensures { IfOk result (λ c. (held.now.0, c) ≡ with_locations_at id locations.now held.now) }
{
    if held.0 != id {
        return held.1.copy(alloc);
    }
    let locations = locations.copy(alloc)?;
    Ok(Collection {
        name: held.1.name,
        locations,
    })
}

/// The collections without one.
fn delete(
    alloc: Global,
    next: u32,
    list: &[(u32, Collection)],
    id: u32,
    used: &[(u32, Ident)],
) -> Result<Vec<(u32, Collection)>, CidrFault>
    ensures ok { IfOk result (λ v.
        outcome (record { next = next; list = list.now }) (Delete id) used.now
        ≡ Ok (record { next = next; list = v.items })) }
    ensures err { IfErr result (IsFaultWhere
        (IsOk (outcome (record { next = next; list = list.now }) (Delete id) used.now))
        (outcome (record { next = next; list = list.now }) (Delete id) used.now)) }
{
    let Some(place) = place_of(list, id) else {
        return Err(CidrFault::NoSuchCidrCollection(id));
    };
    if is_in_use(&list[place].1, id, used) {
        return Err(CidrFault::CidrCollectionInUse);
    }
    match without(alloc, list, id) {
        Ok(after) => Ok(after),
        Err(_) => Err(CidrFault::OutOfMemory),
    }
}

/// The collections without the one of a number.
fn without(
    alloc: Global,
    list: &[(u32, Collection)],
    id: u32,
) -> Result<Vec<(u32, Collection)>, OutOfMemory>
    ensures { IfOk result (λ v. v.items ≡ without id list.now) }
{
    let mut v = Vec::new(alloc);
    for held in list {
        if held.0 != id {
            v.push((held.0, held.1.copy(alloc)?))?;
        }
    }
    Ok(v)
}

/// Whether a collection has a block, or a set names it.
fn is_in_use(collection: &Collection, id: u32, used: &[(u32, Ident)]) -> bool
    ensures { result ≡ (any_has_block collection.now.locations || is_used id used.now) }
{
    has_block(collection.locations.as_slice()) || is_used(id, used)
}

/// Whether a location has a block.
fn has_block(locations: &[CidrLocation]) -> bool
    ensures { result ≡ any_has_block locations.now }
{
    for location in locations {
        if !location.blocks.as_slice().is_empty() {
            return true;
        }
    }
    false
}

/// Whether a set names the collection of a number.
fn is_used(id: u32, used: &[(u32, Ident)]) -> bool
    ensures { result ≡ is_used id used.now }
{
    for named in used {
        if named.0 == id {
            return true;
        }
    }
    false
}
