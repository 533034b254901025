//! The line ChangeResourceRecordSets, its batch and its changes.

ghost use Rattle.std.specs.Prelude.{◌≡◌, ◌<◌, length};
ghost use Rattle.serde_json.specs.View.{view, items_view};
ghost use Rattle.line_reading.specs.Reading.{Gives, each, in_change};
ghost use Rattle.set_lines.specs.ChangeLines.{action_of, change, changes, change_batch};
ghost use Rattle.set_lines.specs.ChangeLines.{change_sets};

use crate::sets::resource_record_set;
use batch_model::{Action, Batch, Change, Changes};
use line_reading::{
    LineFault, Member, each, list, object, required, required_word, text, zone_number,
};
use serde_json::Value;
use std::alloc::Global;

/// The line ChangeResourceRecordSets.
#[tactic(auto, unfolding(crate::specs::ChangeLines::change_sets))]
pub fn change_sets(alloc: Global, value: &Value) -> Result<Batch, LineFault>
    ensures { Gives result (change_sets (view value.now)) }
{
    object(
        value,
        Member::ChangeResourceRecordSets,
        &[],
        &[Member::HostedZoneId, Member::ChangeBatch],
    )?;
    let zone = text(Member::HostedZoneId, required(value, Member::HostedZoneId)?)?;
    let batch = required(value, Member::ChangeBatch)?;
    let changes = change_batch(alloc, zone.as_bytes(), Member::ChangeBatch, batch)?;
    Ok(Batch {
        zone: zone_number(zone.as_bytes()),
        changes,
    })
}

/// The changes of a batch to the zone of this text.
#[tactic(auto, unfolding(crate::specs::ChangeLines::change_batch))]
fn change_batch(
    alloc: Global,
    zone: &[u8],
    member: Member,
    value: &Value,
) -> Result<Changes, LineFault>
    ensures { Gives result (change_batch zone.now member (view value.now)) }
{
    object(value, member, &[], &[Member::Comment, Member::Changes])?;
    changes(
        alloc,
        zone,
        Member::Changes,
        required(value, Member::Changes)?,
    )
}

/// The changes of a list.
#[tactic(auto, unfolding(crate::specs::ChangeLines::changes))]
fn changes(alloc: Global, zone: &[u8], member: Member, value: &Value) -> Result<Changes, LineFault>
    ensures { Gives result (changes zone.now member (view value.now)) }
{
    let items = list(0, 65_535, member, value)?;
    changes_in(alloc, zone, member, items)
}

/// The changes, each with its index in its faults.
fn changes_in(
    alloc: Global,
    zone: &[u8],
    member: Member,
    items: &[Value],
) -> Result<Changes, LineFault>
    requires { length items.now < 65536 }
    ensures { Gives result
        (each (λ k o. in_change k (change zone.now member o)) 0 (items_view items.now)) }
{
    match each(
        alloc,
        items,
        |index, item| change_at(alloc, zone, member, index, item),
    ) {
        Ok(list) => Ok(Changes::from_vec(list)),
        Err(fault) => Err(fault),
    }
}

/// The change at an index.
fn change_at(
    alloc: Global,
    zone: &[u8],
    member: Member,
    index: u16,
    value: &Value,
) -> Result<Change, LineFault>
    ensures { Gives result (in_change index (change zone.now member (view value.now))) }
{
    match one_change(alloc, zone, member, value) {
        Ok(change) => Ok(change),
        Err(fault) => Err(fault.in_change(index)),
    }
}

/// A change.
#[tactic(auto, unfolding(crate::specs::ChangeLines::change))]
fn one_change(
    alloc: Global,
    zone: &[u8],
    member: Member,
    value: &Value,
) -> Result<Change, LineFault>
    ensures { Gives result (change zone.now member (view value.now)) }
{
    object(
        value,
        member,
        &[],
        &[Member::Action, Member::ResourceRecordSet],
    )?;
    let action = required_word(value, Member::Action, |text| action_of(text))?;
    let set = required(value, Member::ResourceRecordSet)?;
    let counted = resource_record_set(alloc, zone, Member::ResourceRecordSet, set)?;
    Ok(Change {
        action,
        characters: counted.characters,
        set: counted.set,
    })
}

/// What a word asks for.
fn action_of(text: &str) -> Option<Action>
    ensures { result ≡ action_of text.now }
{
    match text {
        "CREATE" => Some(Action::Create),
        "DELETE" => Some(Action::Delete),
        "UPSERT" => Some(Action::Upsert),
        _ => None,
    }
}
