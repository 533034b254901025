//! The members of an object.

ghost use Rattle.std.specs.Prelude.{◌≡◌, ◌<◌, ℕ, length, Result, IfOk};
ghost use Rattle.serde_json.specs.Data.{Data};
ghost use Rattle.serde_json.specs.Find.{get};
ghost use Rattle.serde_json.specs.View.{view, items_view, members_view};
ghost use Rattle.line_faults.specs.Texts.{text_of};
ghost use Rattle.line_faults.specs.declared.fault.LineFault.{LineFault};
ghost use Rattle.line_reading.specs.Reading.{Gives, ReadsAs, ReadsItem, ReadsMember, TellsMember};
ghost use Rattle.line_reading.specs.Reading.{each, optional, required, IsRequired, object};
ghost use Rattle.line_reading.specs.Reading.{first_of, is_among, are_among};

use line_faults::{LineFault, LineReason, Member};
use serde_json::{Map, Value};
use std::alloc::Global;

/// For how many items of a list room is made before the first is read. A longer list grows.
const FIRST_ROOM: usize = 1000;

/// Tests that the value of the member `holder` is an object, with members of these names alone.
///
/// Of its unsupported members the first in the order given is told, before unknown members are.
#[tactic(auto, unfolding(crate::specs::Reading::object))]
pub fn object(
    value: &Value,
    holder: Member,
    unsupported: &[Member],
    members: &[Member],
) -> Result<(), LineFault>
    ensures { result ≡ object holder unsupported.now members.now (view value.now) }
{
    let Some(map) = value.as_object() else {
        return Err(LineFault::bad(LineReason::WrongKind, holder));
    };
    if let Some(member) = first_of(value, unsupported) {
        return Err(LineFault::unsupported(member));
    }
    if !are_among(members, map) {
        return Err(LineFault::bad(LineReason::UnknownMember, holder));
    }
    Ok(())
}

/// The value of a member that has to be there.
pub fn required(value: &Value, member: Member) -> Result<&Value, LineFault>
    ensures { IsRequired member (get (text_of member) (view value.now)) result }
{
    match value.get(member.text()) {
        Some(found) => Ok(found),
        None => Err(LineFault::bad(LineReason::Missing, member)),
    }
}

/// What is read of a member where it is there.
pub fn optional<T, F: FnOnce(Member, &Value) -> Result<T, LineFault>>(
    value: &Value,
    member: Member,
    read: F,
) -> Result<Option<T>, LineFault>
    requires { F.IsAlwaysCallable read }
    ensures { (reads : Member → Data → Result T LineFault)
        → TellsMember (λ v r. F.post read member v r) (reads member)
        → result ≡ optional member reads (view value.now) }
{
    match value.get(member.text()) {
        None => Ok(None),
        Some(found) => match read(member, found) {
            Ok(x) => Ok(Some(x)),
            Err(fault) => Err(fault),
        },
    }
}

/// What is read of a member where it is there, by a reader that takes memory.
pub fn optional_owned<T, F: FnOnce(Member, &Value) -> Result<T, LineFault>>(
    value: &Value,
    member: Member,
    read: F,
) -> Result<Option<T>, LineFault>
    requires { F.IsAlwaysCallable read }
    ensures { (reads : Member → Data → Result T LineFault)
        → ReadsMember (λ v r. F.post read member v r) (reads member)
        → Gives result (optional member reads (view value.now)) }
{
    match value.get(member.text()) {
        None => Ok(None),
        Some(found) => match read(member, found) {
            Ok(x) => Ok(Some(x)),
            Err(fault) => Err(fault),
        },
    }
}

/// What is read of each item of a list, by its index from 0, each whole before the next.
pub fn each<T: Drop, F: Fn(u16, &Value) -> Result<T, LineFault>>(
    alloc: Global,
    items: &[Value],
    read: F,
) -> Result<Vec<T>, LineFault>
    requires few { length items.now < 65536 }
    requires callable { F.IsAlwaysCallable read }
    ensures reads { (reads : ℕ → Data → Result T LineFault)
        → ReadsItem (λ k v r. F.post read k v r) reads
        → ReadsAs (λ v. v.items) result (each reads 0 (items_view items.now)) }
    ensures size { IfOk result (λ v. length v.items ≡ length items.now) }
{
    let mut list = Vec::with_capacity(alloc, items.len().min(FIRST_ROOM))?;
    for (index, item) in items.iter().enumerate() {
        match read(index as u16, item) {
            Ok(x) => list.push(x)?,
            Err(fault) => return Err(fault),
        }
    }
    Ok(list)
}

/// The first of these members that an object has.
fn first_of(value: &Value, members: &[Member]) -> Option<Member>
    ensures { result ≡ first_of members.now (view value.now) }
{
    for member in members {
        if value.get(member.text()).is_some() {
            return Some(*member);
        }
    }
    None
}

/// Whether each member of an object is one of these.
fn are_among(members: &[Member], map: &Map<String, Value>) -> bool
    ensures { result ≡ are_among members.now (members_view map.now.entries) }
{
    for (key, _) in map.iter() {
        if !is_among(members, key.as_str()) {
            return false;
        }
    }
    true
}

/// Whether a name is that of one of these members.
fn is_among(members: &[Member], key: &str) -> bool
    ensures { result ≡ is_among members.now key.now }
{
    for member in members {
        if key == member.text() {
            return true;
        }
    }
    false
}
