//! What a run is asked for, and the words that ask for it.

ghost use Rattle.std.specs.Prelude.{[], ◌∷◌, map, IfOk, OnErr, IfSome, IfNone};
ghost use Rattle.std.specs.String.{string_bytes};
ghost use Rattle.r53_cli.specs.Forms.{IsForm, HasNoForm, MayBeOnce};

use crate::once::Once;
use crate::splitting::{is_word, only, two};
use crate::words::{decimal_number, once_of};
use octets::OutOfMemory;
use std::alloc::Global;

/// The most events of a drill.
const MAX_EVENTS: u32 = 100_000;

/// What a run is asked for.
#[derive(Drop)]
pub enum Form {
    /// `once NAME TTL ADDRESS`: to answer one packet by one record.
    Once(Once),
    /// `init`: to make an empty store.
    Init,
    /// `run`: to answer control lines over a store.
    Run,
    /// `dump`: to write what a store holds.
    Dump,
    /// `drill N`: to make a store and to run so many events over it, 100,000 at most.
    Drill(u32),
}

/// What the words behind the program's name ask for, or none where they are of no form.
///
/// No word begins with a hyphen, and numbers are decimal digits without leading zeros.
pub fn form_of(alloc: Global, words: &[String]) -> Result<Option<Form>, OutOfMemory>
    ensures some { IfOk result (λ found. IfSome found (IsForm (map string_bytes words.now))) }
    ensures none { IfOk result (λ found. IfNone found (HasNoForm (map string_bytes words.now))) }
    // Only an address takes memory.
    ensures starved { OnErr result (MayBeOnce (map string_bytes words.now)) }
{
    if let Some(word) = only(words) {
        return Ok(alone(word));
    }
    if let Some((word, events)) = two(words) {
        return Ok(drill(word, events));
    }
    match once_of(alloc, words) {
        Ok(Some(once)) => Ok(Some(Form::Once(once))),
        Ok(None) => Ok(None),
        Err(OutOfMemory) => Err(OutOfMemory),
    }
}

/// What a word alone asks for.
fn alone(word: &str) -> Option<Form>
    ensures some { IfSome result (IsForm (word.now ∷ [])) }
    ensures none { IfNone result (HasNoForm (word.now ∷ [])) }
{
    if is_word(word, "init") {
        return Some(Form::Init);
    }
    if is_word(word, "run") {
        return Some(Form::Run);
    }
    if is_word(word, "dump") {
        return Some(Form::Dump);
    }
    None
}

/// What `drill` and a number of events ask for.
fn drill(word: &str, events: &str) -> Option<Form>
    ensures some { IfSome result (IsForm (word.now ∷ events.now ∷ [])) }
    ensures none { IfNone result (HasNoForm (word.now ∷ events.now ∷ [])) }
{
    if !is_word(word, "drill") {
        return None;
    }
    let n = decimal_number(events)?;
    if n > MAX_EVENTS {
        return None;
    }
    Some(Form::Drill(n))
}
