//! The values of members, by their kinds.

ghost use Rattle.std.specs.Prelude.{◌≡◌, ℕ, List, Option, ◌≤◌, ◌&&◌, nat_le, length, IfOk};
ghost use Rattle.std.specs.Bool.{OnTrue};
ghost use Rattle.serde_json.specs.Events.{items_len};
ghost use Rattle.serde_json.specs.View.{view, items_view};
ghost use Rattle.line_reading.specs.Kinds.{name, text, one_of_texts, MeansWord, flag, list, number};
ghost use Rattle.line_reading.specs.Kinds.{check_id, collection_id, zone_id};
ghost use Rattle.line_reading.specs.Kinds.{without_prefix, id_of, number_of_digits};
ghost use Rattle.line_reading.specs.Reading.{TellsAs, required, optional};

use crate::reading::{optional, required};
use dns_name::Name;
use line_faults::{LineFault, LineReason, Member};
use serde_json::Value;

/// A text, by its octets.
pub fn text(member: Member, value: &Value) -> Result<&str, LineFault>
    ensures { TellsAs (λ s. s.now) result (text member (view value.now)) }
{
    match value.as_str() {
        Some(text) => Ok(text),
        None => Err(LineFault::bad(LineReason::WrongKind, member)),
    }
}

/// A name.
#[tactic(auto, unfolding(crate::specs::Kinds::name))]
pub fn name(member: Member, value: &Value) -> Result<Name, LineFault>
    ensures { result ≡ name member (view value.now) }
{
    let Some(text) = value.as_str() else {
        return Err(LineFault::bad(LineReason::WrongKind, member));
    };
    match Name::from_text(text.as_bytes()) {
        Ok(name) => Ok(name),
        Err(_) => Err(LineFault::bad(LineReason::BadName, member)),
    }
}

/// True or false.
#[tactic(auto, unfolding(crate::specs::Kinds::flag))]
pub fn flag(member: Member, value: &Value) -> Result<bool, LineFault>
    ensures { result ≡ flag member (view value.now) }
{
    match value.as_bool() {
        Some(flag) => Ok(flag),
        None => Err(LineFault::bad(LineReason::WrongKind, member)),
    }
}

/// A number from `low` to `high`, written with digits alone.
#[tactic(auto, unfolding(crate::specs::Kinds::number))]
pub fn number(low: u64, high: u64, member: Member, value: &Value) -> Result<u64, LineFault>
    ensures reads { result ≡ number low high member (view value.now) }
    ensures within { IfOk result (λ n. n ≤ high) }
{
    let Some(n) = value.as_u64() else {
        return Err(LineFault::bad(LineReason::WrongKind, member));
    };
    if low <= n && n <= high {
        Ok(n)
    } else {
        Err(LineFault::bad(LineReason::OutOfRange, member))
    }
}

/// A number from `low` to `high`.
pub fn number_u8(low: u8, high: u8, member: Member, value: &Value) -> Result<u8, LineFault>
    ensures { result ≡ number low high member (view value.now) }
{
    let n = number(u64::from(low), u64::from(high), member, value)?;
    Ok(n as u8)
}

/// A number from `low` to `high`.
pub fn number_u16(low: u16, high: u16, member: Member, value: &Value) -> Result<u16, LineFault>
    ensures { result ≡ number low high member (view value.now) }
{
    let n = number(u64::from(low), u64::from(high), member, value)?;
    Ok(n as u16)
}

/// A number from `low` to `high`.
pub fn number_u32(low: u32, high: u32, member: Member, value: &Value) -> Result<u32, LineFault>
    ensures { result ≡ number low high member (view value.now) }
{
    let n = number(u64::from(low), u64::from(high), member, value)?;
    Ok(n as u32)
}

/// True or false, where it is there.
pub fn optional_flag(value: &Value, member: Member) -> Result<Option<bool>, LineFault>
    ensures { result ≡ optional member flag (view value.now) }
{
    optional(value, member, flag)
}

/// A number from `low` to `high`, where it is there.
pub fn optional_u8(
    value: &Value,
    member: Member,
    low: u8,
    high: u8,
) -> Result<Option<u8>, LineFault>
    ensures { result ≡ optional member (number low high) (view value.now) }
{
    optional(value, member, |m, v| number_u8(low, high, m, v))
}

/// A number from `low` to `high`, where it is there.
pub fn optional_u16(
    value: &Value,
    member: Member,
    low: u16,
    high: u16,
) -> Result<Option<u16>, LineFault>
    ensures { result ≡ optional member (number low high) (view value.now) }
{
    optional(value, member, |m, v| number_u16(low, high, m, v))
}

/// A number from `low` to `high`, where it is there.
pub fn optional_u32(
    value: &Value,
    member: Member,
    low: u32,
    high: u32,
) -> Result<Option<u32>, LineFault>
    ensures { result ≡ optional member (number low high) (view value.now) }
{
    optional(value, member, |m, v| number_u32(low, high, m, v))
}

/// What a text means; a text that means nothing is outside the range.
#[tactic(auto, unfolding(crate::specs::Kinds::one_of_texts))]
pub fn one_of_texts<T, F: FnOnce(&str) -> Option<T>>(
    member: Member,
    value: &Value,
    meaning: F,
) -> Result<T, LineFault>
    requires { F.IsAlwaysCallable meaning }
    ensures { (meant : List ℕ → Option T) → MeansWord (λ s r. F.post meaning s r) meant
        → result ≡ one_of_texts meant member (view value.now) }
{
    let Some(text) = value.as_str() else {
        return Err(LineFault::bad(LineReason::WrongKind, member));
    };
    match meaning(text) {
        Some(x) => Ok(x),
        None => Err(LineFault::bad(LineReason::OutOfRange, member)),
    }
}

/// What a text means that has to be there.
pub fn required_word<T, F: FnOnce(&str) -> Option<T>>(
    value: &Value,
    member: Member,
    meaning: F,
) -> Result<T, LineFault>
    requires { F.IsAlwaysCallable meaning }
    ensures { (meant : List ℕ → Option T) → MeansWord (λ s r. F.post meaning s r) meant
        → result ≡ required member (one_of_texts meant) (view value.now) }
{
    match required(value, member) {
        Ok(found) => one_of_texts(member, found, meaning),
        Err(fault) => Err(fault),
    }
}

/// What a text means, where it is there.
pub fn optional_word<T, F: FnOnce(&str) -> Option<T>>(
    value: &Value,
    member: Member,
    meaning: F,
) -> Result<Option<T>, LineFault>
    requires { F.IsAlwaysCallable meaning }
    ensures { (meant : List ℕ → Option T) → MeansWord (λ s r. F.post meaning s r) meant
        → result ≡ optional member (one_of_texts meant) (view value.now) }
{
    match value.get(member.text()) {
        None => Ok(None),
        Some(found) => match one_of_texts(member, found, meaning) {
            Ok(x) => Ok(Some(x)),
            Err(fault) => Err(fault),
        },
    }
}

/// The id of a check, `h1` and on, by its number; another text is number 0.
#[tactic(auto, unfolding(crate::specs::Kinds::check_id))]
pub fn check_id(member: Member, value: &Value) -> Result<u32, LineFault>
    ensures { result ≡ check_id member (view value.now) }
{
    match value.as_str() {
        Some(text) => Ok(id_of(b'h', text.as_bytes())),
        None => Err(LineFault::bad(LineReason::WrongKind, member)),
    }
}

/// The id of a collection, `c1` and on, by its number; another text is number 0.
#[tactic(auto, unfolding(crate::specs::Kinds::collection_id))]
pub fn collection_id(member: Member, value: &Value) -> Result<u32, LineFault>
    ensures { result ≡ collection_id member (view value.now) }
{
    match value.as_str() {
        Some(text) => Ok(id_of(b'c', text.as_bytes())),
        None => Err(LineFault::bad(LineReason::WrongKind, member)),
    }
}

/// The id of a zone, `Z1` and on, which may stand behind `/hostedzone/`, by its number; another
/// text is number 0.
#[tactic(auto, unfolding(crate::specs::Kinds::zone_id))]
pub fn zone_id(member: Member, value: &Value) -> Result<u32, LineFault>
    ensures { result ≡ zone_id member (view value.now) }
{
    match value.as_str() {
        Some(text) => Ok(zone_number(text.as_bytes())),
        None => Err(LineFault::bad(LineReason::WrongKind, member)),
    }
}

/// The number of the id of a zone, which may stand behind `/hostedzone/`, or 0.
pub fn zone_number(text: &[u8]) -> u32
    ensures { result ≡ id_of 90 (without_prefix text.now) }
{
    id_of(b'Z', without_prefix(text))
}

/// A zone's id without the prefix that it may have.
pub fn without_prefix(text: &[u8]) -> &[u8]
    ensures { result.now ≡ without_prefix text.now }
{
    match text.strip_prefix(b"/hostedzone/") {
        Some(rest) => rest,
        None => text,
    }
}

/// The number of an id, or 0.
fn id_of(letter: u8, text: &[u8]) -> u32
    ensures { result ≡ id_of letter text.now }
{
    match text {
        [first, digits @ ..] => {
            if *first == letter {
                number_of_digits(digits)
            } else {
                0
            }
        }
        [] => 0,
    }
}

/// The number that digits spell, or 0.
fn number_of_digits(digits: &[u8]) -> u32
    ensures { result ≡ number_of_digits 0 digits.now }
{
    let mut number: u64 = 0;
    for digit in digits {
        if *digit < b'0' || *digit > b'9' {
            return 0;
        }
        number = number * 10 + u64::from(*digit - b'0');
        if number == 0 || number > 4_294_967_294 {
            return 0;
        }
    }
    number as u32
}

/// The items of a list of `low` to `high` items.
#[tactic(auto, unfolding(crate::specs::Kinds::list))]
pub fn list(low: usize, high: usize, member: Member, value: &Value) -> Result<&[Value], LineFault>
    ensures reads { TellsAs (λ items. items_view items.now) result
        (list low high member (view value.now)) }
    ensures least { IfOk result (λ items. low ≤ length items.now) }
    ensures most { IfOk result (λ items. length items.now ≤ high) }
{
    let Some(list) = value.as_array() else {
        return Err(LineFault::bad(LineReason::WrongKind, member));
    };
    let items = list.as_slice();
    if is_within(low, high, items) {
        Ok(items)
    } else {
        Err(LineFault::bad(LineReason::OutOfRange, member))
    }
}

/// Whether a list has so many items.
#[tactic(auto, using(crate::proofs::Items::within))]
fn is_within(low: usize, high: usize, items: &[Value]) -> bool
    ensures reads { result ≡ (nat_le low (items_len (items_view items.now))
        && nat_le (items_len (items_view items.now)) high) }
    ensures within { OnTrue result ((low ≤ length items.now) × (length items.now ≤ high)) }
{
    low <= items.len() && items.len() <= high
}
