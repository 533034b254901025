//! The list ResourceRecords.

ghost use Rattle.std.specs.Prelude.{◌≡◌, ◌≤◌, length, IfOk};
ghost use Rattle.serde_json.specs.View.{view, items_view};
ghost use Rattle.batch_model.specs.Gives.{IsValueOfText};
ghost use Rattle.line_reading.specs.Reading.{Gives};
ghost use Rattle.set_lines.specs.Values.{value_of, value, record_value, together, values_in};
ghost use Rattle.set_lines.specs.Values.{records};

use batch_model::{RData, RType, ValueFault, Values, texts_read_as_values};
use line_reading::{LineFault, LineReason, Member, each, list, object, required};
use octets::OutOfMemory;
use serde_json::Value;
use std::alloc::Global;

/// The most bytes of a value's text.
const MOST_TEXT: usize = 4_000;

/// A value, and how many bytes its text had.
#[derive(Drop)]
pub(crate) struct Counted {
    datum: RData,
    characters: u16,
}

/// The values of a set, and how many bytes their texts had together.
#[derive(Drop)]
pub(crate) struct Valued {
    pub(crate) values: Values,
    pub(crate) characters: u32,
}

/// A list of values of this type.
#[tactic(auto, unfolding(crate::specs::Values::records))]
pub(crate) fn records(
    alloc: Global,
    rtype: RType,
    member: Member,
    value: &Value,
) -> Result<Valued, LineFault>
    ensures { Gives result (records rtype member (view value.now)) }
{
    let items = list(0, 65_535, member, value)?;
    values_in(alloc, rtype, member, items)
}

/// The values of a list.
#[tactic(auto, unfolding(crate::specs::Values::values_in))]
fn values_in(
    alloc: Global,
    rtype: RType,
    member: Member,
    items: &[Value],
) -> Result<Valued, LineFault>
    requires { length items.now ≤ 65535 }
    ensures { Gives result (values_in rtype member (items_view items.now)) }
{
    let list = each(
        alloc,
        items,
        |_, item| record_value(alloc, rtype, member, item),
    )?;
    match together(alloc, list) {
        Ok(valued) => Ok(valued),
        Err(OutOfMemory) => Err(LineFault::OutOfMemory),
    }
}

/// Values in their order, and the sum of their bytes.
fn together(alloc: Global, list: Vec<Counted>) -> Result<Valued, OutOfMemory>
    requires { length list.items ≤ 65535 }
    ensures { IfOk result (λ valued. valued ≡ together list.items) }
{
    let mut values = Vec::new(alloc);
    let mut sum: u32 = 0;
    for counted in list {
        let Counted { datum, characters } = counted;
        sum += widened(characters);
        values.push(datum)?;
    }
    Ok(Valued {
        values: Values::from_vec(values),
        characters: sum,
    })
}

/// The same number.
fn widened(characters: u16) -> u32
    ensures same { result ≡ characters }
    ensures small { result ≤ 65535 }
{
    u32::from(characters)
}

/// The value of an object with a text alone.
#[tactic(auto, unfolding(crate::specs::Values::record_value))]
fn record_value(
    alloc: Global,
    rtype: RType,
    member: Member,
    item: &Value,
) -> Result<Counted, LineFault>
    ensures { Gives result (record_value rtype member (view item.now)) }
{
    object(item, member, &[], &[Member::Value])?;
    let found = required(item, Member::Value)?;
    value(alloc, rtype, Member::Value, found)
}

/// A value of this type.
#[tactic(auto, unfolding(crate::specs::Values::value))]
fn value(alloc: Global, rtype: RType, member: Member, found: &Value) -> Result<Counted, LineFault>
    ensures { Gives result (value rtype member (view found.now)) }
{
    match found.as_str() {
        Some(text) => value_of(alloc, rtype, member, text.as_bytes()),
        None => Err(LineFault::bad(LineReason::WrongKind, member)),
    }
}

/// The value of a text.
fn value_of(alloc: Global, rtype: RType, member: Member, text: &[u8]) -> Result<Counted, LineFault>
    ensures { Gives result (value_of member rtype text.now) }
{
    if text.len() > MOST_TEXT {
        return Err(LineFault::bad(LineReason::BadValue, member));
    }
    match value_of_text(alloc, rtype, text) {
        Ok(datum) => Ok(Counted {
            datum,
            characters: text.len() as u16,
        }),
        Err(ValueFault::OutOfMemory) => Err(LineFault::OutOfMemory),
        Err(ValueFault::BadField(_)) => Err(LineFault::bad(LineReason::BadValue, member)),
        Err(ValueFault::MissingField(_)) => Err(LineFault::bad(LineReason::BadValue, member)),
        Err(ValueFault::SurplusField(_)) => Err(LineFault::bad(LineReason::BadValue, member)),
        Err(ValueFault::TooLong) => Err(LineFault::bad(LineReason::BadValue, member)),
    }
}

/// The value of a text, as a function of it tells.
fn value_of_text(alloc: Global, rtype: RType, text: &[u8]) -> Result<RData, ValueFault>
    ensures { IsValueOfText rtype text.now result }
{
    texts_read_as_values();
    RData::from_text(alloc, rtype, text)
}
