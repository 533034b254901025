//! The words of `once`: a name, seconds and an address.

ghost use Rattle.std.specs.Prelude.{◌≡◌, ◌≢◌, ℕ, ◌^◌, ◌<◌, List, map, false, IfOk, OnErr, IfSome, IfNone, IsTrue, ◌↔◌, slice_index};
ghost use Rattle.std.specs.List.{All};
ghost use Rattle.std.specs.String.{string_bytes};
ghost use Rattle.std.specs.Fmt.{decimal};
ghost use Rattle.dns_name.specs.Text.{name_of_text};
ghost use Rattle.value_text.specs.Fields.{is_blank};
ghost use Rattle.rdata.specs.Datum.{Datum};
ghost use Rattle.r53_cli.specs.Once.{IsAddress, IsOnce, IsPlain, Spells, HasNoOnce};
ghost use Rattle.r53_cli.specs.Forms.{MayBeOnce};
ghost use Rattle.r53_cli.specs.Words.{IsUnpadded};
ghost use Rattle.r53_cli.specs.declared.once.Once.{Once};

use crate::once::Once;
use crate::splitting::{four, is_word};
use dns_name::Name;
use octets::OutOfMemory;
use rdata::{RData, RType, ValueFault, one_reading};
use std::alloc::Global;

/// The record of the words `once NAME TTL ADDRESS`, or none where the words are others.
pub(crate) fn once_of(alloc: Global, words: &[String]) -> Result<Option<Once>, OutOfMemory>
    ensures some { IfOk result (λ found. IfSome found (IsOnce (map string_bytes words.now))) }
    ensures none { IfOk result (λ found. IfNone found (HasNoOnce (map string_bytes words.now))) }
    ensures starved { OnErr result (MayBeOnce (map string_bytes words.now)) }
{
    if !are_plain(words) {
        return Ok(None);
    }
    let Some((form, name, ttl, address)) = four(words) else {
        return Ok(None);
    };
    if !is_word(form, "once") {
        return Ok(None);
    }
    record(alloc, name, ttl, address)
}

/// Whether no word is an option.
fn are_plain(words: &[String]) -> bool
    ensures { IsTrue result ↔ All (λ word. IsPlain (string_bytes word)) words.now }
{
    words.iter().all(|word| is_plain(word.as_str()))
}

/// Whether a word is no option.
fn is_plain(word: &str) -> bool
    ensures { IsTrue result ↔ IsPlain word.now }
{
    word.as_bytes().first() != Some(&b'-')
}

/// The record of a name, a number of seconds and an address, or none where one of them is not of its form.
fn record(alloc: Global, name: &str, ttl: &str, address: &str) -> Result<Option<Once>, OutOfMemory>
    ensures some { IfOk result (λ found. IfSome found (Spells name.now ttl.now address.now)) }
    ensures none { IfOk result (λ found. IfNone found ((once : Once)
        → Spells name.now ttl.now address.now once → ⊥)) }
{
    let Some(name) = name_of(name.as_bytes()) else {
        return Ok(None);
    };
    let Some(ttl) = seconds(ttl) else {
        return Ok(None);
    };
    match address_of(alloc, address.as_bytes()) {
        Ok(Some(address)) => Ok(Some(Once { name, ttl, address })),
        Ok(None) => Ok(None),
        Err(OutOfMemory) => Err(OutOfMemory),
    }
}

/// The address of a text, a value of type A without blanks around it, or none.
fn address_of(alloc: Global, text: &[u8]) -> Result<Option<RData>, OutOfMemory>
    ensures some { IfOk result (λ found. IfSome found (IsAddress text.now)) }
    ensures none { IfOk result (λ found. IfNone found ((address : Datum) → IsAddress text.now address → ⊥)) }
{
    if !is_whole(text) {
        return Ok(None);
    }
    one_reading();
    match RData::from_text(alloc, RType::A, text) {
        Ok(address) => Ok(Some(address)),
        Err(ValueFault::OutOfMemory) => Err(OutOfMemory),
        Err(ValueFault::BadField(_)) => Ok(None),
        Err(ValueFault::MissingField(_)) => Ok(None),
        Err(ValueFault::SurplusField(_)) => Ok(None),
        Err(ValueFault::TooLong) => Ok(None),
    }
}

/// Whether a text has no blank.
fn is_whole(text: &[u8]) -> bool
    ensures { IsTrue result ↔ All (λ byte. is_blank byte ≡ false) text.now }
{
    text.iter().all(|byte| is_no_blank(*byte))
}

/// Whether a byte is neither a space nor a tab.
fn is_no_blank(byte: u8) -> bool
    ensures { IsTrue result ↔ (is_blank byte ≡ false) }
{
    byte != b' ' && byte != b'\t'
}

/// The name of a text.
fn name_of(text: &[u8]) -> Option<Name>
    ensures some { IfSome result (λ name. name_of_text text.now ≡ Ok name) }
    ensures none { IfNone result ((labels : List (List ℕ)) → name_of_text text.now ≢ Ok labels) }
{
    match Name::from_text(text) {
        Ok(name) => Some(name),
        Err(_) => None,
    }
}

/// The seconds that a text writes in decimal digits, without leading zeros. They are below 2^31.
fn seconds(text: &str) -> Option<u32>
    ensures some { IfSome result (λ n. (text.now ≡ decimal n) × (n < 2 ^ 31)) }
    ensures none { IfNone result ((n : ℕ) → n < 2 ^ 31 → text.now ≢ decimal n) }
{
    let n = decimal_number(text)?;
    if n > 2_147_483_647 {
        return None;
    }
    Some(n)
}

/// The number that a text writes in decimal digits, without leading zeros.
pub(crate) fn decimal_number(text: &str) -> Option<u32>
    ensures some { IfSome result (λ n. text.now ≡ decimal n) }
    ensures none { IfNone result ((n : ℕ) → n < 2 ^ 32 → text.now ≢ decimal n) }
{
    if !is_unpadded(text.as_bytes()) {
        return None;
    }
    match text.parse::<u32>() {
        Ok(n) => Some(n),
        Err(_) => None,
    }
}

/// Whether a text has neither a plus nor a leading zero in front.
fn is_unpadded(text: &[u8]) -> bool
    ensures { IsTrue result ↔ IsUnpadded text.now }
{
    match text.first() {
        Some(b'+') => false,
        Some(b'0') => text.len() == 1,
        _ => true,
    }
}
