//! The lines on collections.

ghost use Rattle.std.specs.Prelude.{◌≡◌, ◌<◌, length};
ghost use Rattle.serde_json.specs.View.{view, items_view};
ghost use Rattle.line_reading.specs.Reading.{Gives, each, in_change};
ghost use Rattle.cidr_lines.specs.Collections.{block, blocks, change, changes};
ghost use Rattle.cidr_lines.specs.Collections.{create_collection, change_collection};
ghost use Rattle.cidr_lines.specs.Collections.{delete_collection};

use crate::names::{collection_name, is_put, location_name};
use cidr_blocks::Blocks;
use cidr_changes::{Changes, CidrChange};
use cidr_commands::CidrCommand;
use ip_table::IpPrefix;
use line_reading::{
    LineFault, LineReason, Member, collection_id, each, list, object, required, required_word,
};
use prefix_text::read_prefix;
use serde_json::Value;
use std::alloc::Global;

/// The line CreateCidrCollection.
#[tactic(auto, unfolding(crate::specs::Collections::create_collection))]
pub fn create_collection(value: &Value) -> Result<CidrCommand, LineFault>
    ensures { result ≡ create_collection (view value.now) }
{
    object(
        value,
        Member::CreateCidrCollection,
        &[],
        &[Member::Name, Member::CallerReference],
    )?;
    let name = required_word(value, Member::Name, |text| collection_name(text.as_bytes()))?;
    Ok(CidrCommand::Create(name))
}

/// The line ChangeCidrCollection.
#[tactic(auto, unfolding(crate::specs::Collections::change_collection))]
pub fn change_collection(alloc: Global, value: &Value) -> Result<CidrCommand, LineFault>
    ensures { Gives result (change_collection (view value.now)) }
{
    object(
        value,
        Member::ChangeCidrCollection,
        &[Member::CollectionVersion],
        &[Member::Id, Member::Changes],
    )?;
    let id = collection_id(Member::Id, required(value, Member::Id)?)?;
    let changes = changes(alloc, Member::Changes, required(value, Member::Changes)?)?;
    Ok(CidrCommand::Change { id, changes })
}

/// The line DeleteCidrCollection.
#[tactic(auto, unfolding(crate::specs::Collections::delete_collection))]
pub fn delete_collection(value: &Value) -> Result<CidrCommand, LineFault>
    ensures { result ≡ delete_collection (view value.now) }
{
    object(value, Member::DeleteCidrCollection, &[], &[Member::Id])?;
    let id = collection_id(Member::Id, required(value, Member::Id)?)?;
    Ok(CidrCommand::Delete(id))
}

/// The changes of a list.
#[tactic(auto, unfolding(crate::specs::Collections::changes))]
fn changes(alloc: Global, member: Member, value: &Value) -> Result<Changes, LineFault>
    ensures { Gives result (changes member (view value.now)) }
{
    let items = list(1, 1_000, member, value)?;
    changes_in(alloc, member, items)
}

/// The changes, each with its index in its faults.
fn changes_in(alloc: Global, member: Member, items: &[Value]) -> Result<Changes, LineFault>
    requires { length items.now < 65536 }
    ensures { Gives result
        (each (λ k o. in_change k (change member o)) 0 (items_view items.now)) }
{
    match each(
        alloc,
        items,
        |index, item| change_at(alloc, member, index, item),
    ) {
        Ok(list) => Ok(Changes::from_vec(list)),
        Err(fault) => Err(fault),
    }
}

/// The change at an index.
fn change_at(
    alloc: Global,
    member: Member,
    index: u16,
    value: &Value,
) -> Result<CidrChange, LineFault>
    ensures { Gives result (in_change index (change member (view value.now))) }
{
    match one_change(alloc, member, value) {
        Ok(change) => Ok(change),
        Err(fault) => Err(fault.in_change(index)),
    }
}

/// A change.
#[tactic(auto, unfolding(crate::specs::Collections::change))]
fn one_change(alloc: Global, member: Member, value: &Value) -> Result<CidrChange, LineFault>
    ensures { Gives result (change member (view value.now)) }
{
    object(
        value,
        member,
        &[],
        &[Member::Action, Member::LocationName, Member::CidrList],
    )?;
    let put = required_word(value, Member::Action, |text| is_put(text))?;
    let location = required_word(
        value,
        Member::LocationName,
        |text| location_name(text.as_bytes()),
    )?;
    let blocks = blocks(alloc, Member::CidrList, required(value, Member::CidrList)?)?;
    Ok(CidrChange {
        put,
        location,
        blocks,
    })
}

/// The blocks of a list.
#[tactic(auto, unfolding(crate::specs::Collections::blocks))]
fn blocks(alloc: Global, member: Member, value: &Value) -> Result<Blocks, LineFault>
    ensures { Gives result (blocks member (view value.now)) }
{
    let items = list(1, 1_000, member, value)?;
    blocks_in(alloc, member, items)
}

/// The blocks of texts.
fn blocks_in(alloc: Global, member: Member, items: &[Value]) -> Result<Blocks, LineFault>
    requires { length items.now < 65536 }
    ensures { Gives result (each (λ _. block member) 0 (items_view items.now)) }
{
    match each(alloc, items, |_, item| block(member, item)) {
        Ok(list) => Ok(Blocks::from_vec(list)),
        Err(fault) => Err(fault),
    }
}

/// A block.
#[tactic(auto, unfolding(crate::specs::Collections::block))]
fn block(member: Member, value: &Value) -> Result<IpPrefix, LineFault>
    ensures { result ≡ block member (view value.now) }
{
    let Some(text) = value.as_str() else {
        return Err(LineFault::bad(LineReason::WrongKind, member));
    };
    match read_prefix(text.as_bytes()) {
        Some(block) => Ok(block),
        None => Err(LineFault::bad(LineReason::BadAddress, member)),
    }
}
