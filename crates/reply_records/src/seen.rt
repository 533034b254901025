//! Values of the sets that were looked at so far, kept as far as they are short and room is left for
//! them: a value is told to be one of these without a look at its set.

ghost use Rattle.std.specs.Prelude.{◌≡◌, ◌≤◌, ◌<◌, ◌++◌, ◌∷◌, [], ℕ, IfSome, IsTrue, ◌↔◌, List};
ghost use Rattle.std.specs.Prelude.{Some, length, slice_get, take};
ghost use Rattle.policy_select.specs.Records.{data_of, is_among};
ghost use Rattle.record_set.specs.declared.sets.RecordSet.{RecordSet};
ghost use Rattle.policy_select.specs.Holding.{HasValue, IsHolding};
ghost use Rattle.zone_model.specs.Zones.{IsAmong};
ghost use Rattle.reply_records.specs.Seeing.{Sees, short_of};

use crate::held::count_of;
use octets::fill_front;
use policy_select::Scratch;

/// The most octets of a value that is kept: addresses have 4 and 16.
const MOST_SHORT: usize = 19;

/// The octets of a short value, with zeros behind them, and how many they are.
#[derive(Clone, Copy, PartialEq, Eq)]
pub(crate) struct Short {
    pub octets: [u8; 19],
    pub len: u8,
}

/// No value.
pub(crate) const NONE: Short = Short {
    octets: [0; 19],
    len: 0,
};

/// How many values are kept in the first places of some room, and whether these are all that are
/// short.
#[derive(Clone, Copy)]
pub(crate) struct Seen {
    pub count: usize,
    pub is_whole: bool,
}

/// The short value of these octets.
fn as_short(rdata: &[u8]) -> Short
    requires { length rdata.now ≤ 19 }
    ensures { result ≡ short_of rdata.now }
{
    let mut octets = [0; 19];
    fill_front(&mut octets, rdata);
    Short {
        octets,
        len: rdata.len() as u8,
    }
}

/// The short value at a place.
fn kept_at(values: &[Short], i: usize) -> Short
    requires { i < length values.now }
    ensures { slice_get values.now i ≡ Some result }
{
    values[i]
}

/// Whether two short values are one.
fn is_one(short: &Short, other: &Short) -> bool
    ensures { IsTrue result ↔ (short.now ≡ other.now) }
{
    short == other
}

/// Whether a short value is one of the first ones.
fn has(values: &[Short], count: usize, short: &Short) -> bool
    requires { count ≤ length values.now }
    ensures { IsTrue result ↔ IsAmong (take count values.now) short.now }
{
    for i in 0..count {
        if is_one(&kept_at(values, i), short) {
            return true;
        }
    }
    false
}

/// Whether a value is one of those that were seen, where what is kept tells it.
pub(crate) fn is_seen(values: &[Short], seen: &Seen, rdata: &[u8]) -> Option<bool>
    requires { seen.now.count ≤ length values.now }
    ensures { (rdatas : List (List ℕ)) → Sees rdatas values.now seen.now
        → IfSome result (λ told. told ≡ is_among rdatas rdata.now) }
{
    if rdata.len() > MOST_SHORT {
        return None;
    }
    if has(values, seen.count, &as_short(rdata)) {
        return Some(true);
    }
    if seen.is_whole {
        return Some(false);
    }
    None
}

/// Notes a value.
fn note(values: &mut [Short], seen: &mut Seen, rdata: &[u8])
    requires { seen.old.count ≤ length values.old }
    ensures sees { (rdatas : List (List ℕ)) → Sees rdatas values.old seen.old
        → Sees (rdatas ++ rdata.now ∷ []) values.new seen.new }
    ensures within { seen.new.count ≤ length values.new }
    ensures room { length values.new ≡ length values.old }
{
    if rdata.len() > MOST_SHORT {
        return;
    }
    let short = as_short(rdata);
    if has(values, seen.count, &short) {
        return;
    }
    if seen.count >= values.len() {
        seen.is_whole = false;
        return;
    }
    values[seen.count] = short;
    seen.count += 1;
}

/// Notes the values of the set that is held.
pub(crate) fn note_held(values: &mut [Short], seen: &mut Seen, scratch: &Scratch)
    requires held { IsHolding scratch.now }
    requires within { seen.old.count ≤ length values.old }
    ensures sees { (set : RecordSet) (rdatas : List (List ℕ)) → scratch.now ≡ Some set
        → Sees rdatas values.old seen.old
        → Sees (rdatas ++ data_of set.body) values.new seen.new }
    ensures within { seen.new.count ≤ length values.new }
    ensures room { length values.new ≡ length values.old }
{
    for i in 0..count_of(scratch) {
        note(values, seen, value_at(scratch, i));
    }
}

/// The data of a value of the set that is held.
fn value_at(scratch: &Scratch, i: usize) -> &[u8]
    requires { HasValue scratch.now i }
    ensures { (set : RecordSet) → scratch.now ≡ Some set
        → slice_get (data_of set.body) i ≡ Some result.now }
{
    scratch.value(i)
}
