//! The text of a value, field by field.

ghost use Rattle.std.specs.Prelude.{◌≡◌, ℕ, ◌+◌, ◌-◌, ◌*◌, ◌≤◌, ◌<◌, List, [], ◌++◌, length, take, drop, None, Some, Ok, IfOk, OnOk, IfErr, IfSome, IfNone};
ghost use Rattle.field_text.specs.Strings.{string_of_text};
ghost use Rattle.field_text.specs.Spelling.{Spells};
ghost use Rattle.field_text.specs.TailRecord.TheVariants as tail;
ghost use Rattle.rdata.specs.TextFields.{bytes_of};
ghost use Rattle.rdata.specs.Steps.{FailsWith, ReadsUpTo, ReadsAll, ReadsTail, ReadsStrings, PassesStrings, AppendsTail};

use crate::faults::ValueFault;
use field_text::{Field, Tail, next_field, read_field, read_string};
use octets::{behind, front};

/// Reads fields of these kinds from the front of the text, and says where the last one ends. Their
/// octets are appended.
pub(crate) fn read_fields(
    kinds: &[Field],
    text: &[u8],
    into: &mut Vec<u8>,
) -> Result<usize, ValueFault>
    requires { into.old.items ≡ [] }
    ensures ok { IfOk result (λ at. ReadsUpTo text.now kinds.now [] at into.new.items) }
    ensures within { IfOk result (λ at. at ≤ length text.now) }
    ensures size { IfOk result (λ _. length into.new.items ≤ 255 * length kinds.now) }
    ensures err { IfErr result (FailsWith (ReadsAll text.now kinds.now)) }
{
    let mut at = 0;
    let mut octets = [0; 255];
    for kind in kinds {
        let Some(field) = next_field(text, at) else {
            return Err(ValueFault::MissingField(text.len()));
        };
        let bytes = part(text, field.start, field.end);
        let Some(len) = read_field(*kind, bytes, &mut octets) else {
            return Err(ValueFault::BadField(field.start));
        };
        into.extend_from_slice(front(&octets, len))?;
        at = field.end;
    }
    Ok(at)
}

/// Reads what stands from this place on as the tail, and appends its octets.
pub(crate) fn read_tail(
    end: Tail,
    text: &[u8],
    at: usize,
    into: &mut Vec<u8>,
) -> Result<(), ValueFault>
    requires { at ≤ length text.now }
    ensures ok { OnOk result (AppendsTail text.now at end into.old.items into.new.items) }
    ensures err { IfErr result (FailsWith (ReadsTail text.now at end)) }
{
    match end {
        Tail::Nothing => read_end(text, at),
        Tail::Strings => {
            if next_field(text, at).is_none() {
                return Err(ValueFault::MissingField(text.len()));
            }
            read_strings(text, at, into)
        }
        Tail::Value => read_value(text, at, into),
    }
}

/// Reads the end of a text, where no field is left.
fn read_end(text: &[u8], at: usize) -> Result<(), ValueFault>
    requires { at ≤ length text.now }
    ensures ok { OnOk result (ReadsTail text.now at tail.Nothing (Ok [])) }
    ensures err { IfErr result (FailsWith (ReadsTail text.now at tail.Nothing)) }
{
    if let Some(field) = next_field(text, at) {
        return Err(ValueFault::SurplusField(field.start));
    }
    Ok(())
}

/// Reads strings, and appends each behind its length.
fn read_strings(text: &[u8], at: usize, into: &mut Vec<u8>) -> Result<(), ValueFault>
    requires { at ≤ length text.now }
    ensures ok { OnOk result ((octets : List ℕ) × (into.new.items ≡ into.old.items ++ octets)
        × ReadsStrings text.now at (Ok octets) × (length octets ≤ length text.now)) }
    ensures err { IfErr result (FailsWith (ReadsStrings text.now at)) }
{
    let mut place = at;
    let mut string = [0; 255];
    while let Some(field) = next_field(text, place) {
        let bytes = part(text, field.start, field.end);
        let Some(len) = read_string(bytes, &mut string) else {
            return Err(ValueFault::BadField(field.start));
        };
        into.push(len as u8)?;
        into.extend_from_slice(front(&string, len))?;
        place = field.end;
    }
    Ok(())
}

/// Reads one string to the end of the text, and appends its bytes.
fn read_value(text: &[u8], at: usize, into: &mut Vec<u8>) -> Result<(), ValueFault>
    requires { at ≤ length text.now }
    ensures ok { OnOk result (AppendsTail text.now at tail.Value into.old.items into.new.items) }
    ensures err { IfErr result (FailsWith (ReadsTail text.now at tail.Value)) }
{
    let Some(field) = next_field(text, at) else {
        return Err(ValueFault::MissingField(text.len()));
    };
    let mut string = [0; 255];
    let Some(len) = read_string(part(text, field.start, field.end), &mut string) else {
        return Err(ValueFault::BadField(field.start));
    };
    match read_end(text, field.end) {
        Ok(()) => {}
        Err(fault) => return Err(fault),
    }
    into.extend_from_slice(front(&string, len))?;
    Ok(())
}

/// The bytes between two places.
fn part(text: &[u8], start: usize, end: usize) -> &[u8]
    requires start { start ≤ end }
    requires end { end ≤ length text.now }
    ensures { result.now ≡ take (end - start) (drop start text.now) }
{
    front(behind(text, start), end - start)
}
