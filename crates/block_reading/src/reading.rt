//! Commands on collections at the front of octets, each behind its kind.

ghost use Rattle.block_octets.specs.Reading.{Gives, GivesOrStops};
ghost use Rattle.block_reading.specs.Reading.{put_of, put_at, change_at, create_at};
ghost use Rattle.block_reading.specs.Reading.{change_collection_at, delete_at};

use crate::blocks::OneBlock;
use crate::names::{location_at, name_at};
use block_octets::{
    Blocks, Changes, CidrChange, CidrCommand, Fault, Field, Stop, four_at, list_at, octet_at,
};
use std::alloc::Global;

/// A new collection.
#[tactic(auto, unfolding(crate::specs::Reading::create_at))]
pub fn create_collection_at(bytes: &[u8]) -> Result<(CidrCommand, &[u8]), Fault>
    ensures { Gives (λ x. (x.0, x.1.now)) result (create_at bytes.now) }
{
    match name_at(bytes) {
        Ok((name, rest)) => Ok((CidrCommand::Create(name), rest)),
        Err(fault) => Err(fault),
    }
}

/// Changes of a collection.
#[tactic(auto, unfolding(crate::specs::Reading::change_collection_at))]
pub fn change_collection_at(alloc: Global, bytes: &[u8]) -> Result<(CidrCommand, &[u8]), Stop>
    ensures { GivesOrStops (λ x. (x.0, x.1.now)) result (change_collection_at bytes.now) }
{
    let (id, rest) = four_at(bytes)?;
    let (changes, rest) = list_at(alloc, &OneChange, rest)?;
    let changes = Changes::from_vec(changes);
    Ok((CidrCommand::Change { id, changes }, rest))
}

/// The end of a collection.
#[tactic(auto, unfolding(crate::specs::Reading::delete_at))]
pub fn delete_collection_at(bytes: &[u8]) -> Result<(CidrCommand, &[u8]), Fault>
    ensures { Gives (λ x. (x.0, x.1.now)) result (delete_at bytes.now) }
{
    let (id, rest) = four_at(bytes)?;
    Ok((CidrCommand::Delete(id), rest))
}

/// A change, as an item of a list.
struct OneChange;

impl Field for OneChange {
    type Value = CidrChange;

    ghost use Rattle.block_reading.specs.Reading.{change_at};

    ghost reading = { λ _. change_at };

    fn read<'a>(&self, alloc: Global, bytes: &'a [u8]) -> Result<(CidrChange, &'a [u8]), Stop> {
        change_at(alloc, bytes)
    }
}

/// A change of the blocks of one location.
#[tactic(auto, unfolding(crate::specs::Reading::change_at))]
fn change_at(alloc: Global, bytes: &[u8]) -> Result<(CidrChange, &[u8]), Stop>
    ensures { GivesOrStops (λ x. (x.0, x.1.now)) result (change_at bytes.now) }
{
    let (put, rest) = put_at(bytes)?;
    let (location, rest) = match location_at(rest) {
        Ok(read) => read,
        Err(Fault(left)) => return Err(Stop::Bad(left)),
    };
    let (blocks, rest) = list_at(alloc, &OneBlock, rest)?;
    let change = CidrChange {
        put,
        location,
        blocks: Blocks::from_vec(blocks),
    };
    Ok((change, rest))
}

/// What a change does, by its number.
#[tactic(auto, unfolding(crate::specs::Reading::put_at))]
fn put_at(bytes: &[u8]) -> Result<(bool, &[u8]), Fault>
    ensures { Gives (λ x. (x.0, x.1.now)) result (put_at bytes.now) }
{
    let (n, rest) = octet_at(bytes)?;
    match n {
        1 => Ok((true, rest)),
        2 => Ok((false, rest)),
        _ => Err(Fault(bytes.len())),
    }
}
