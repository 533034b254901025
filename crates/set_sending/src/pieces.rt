//! The pieces of a set, passed on one after another.

ghost use Rattle.std.specs.Prelude.{◌≡◌, ◌≤◌, ◌++◌, ℕ, List, Some, false, nat_lt, slice_get};
ghost use Rattle.std.specs.Prelude.{vec_capacity};
ghost use Rattle.list_writing.specs.Pieces.{set_front, set_pieces, set_rest, value_piece};
ghost use Rattle.list_writing.specs.Pieces.{value_pieces};
ghost use Rattle.octets.specs.Counts.{Rose};
ghost use Rattle.record_set.specs.declared.sets.RecordSet.{RecordSet};
ghost use Rattle.list_writing.specs.Bodies.{wires_of};
ghost use Rattle.list_writing.specs.Holding.{HasValue, IsHolding};
ghost use Rattle.set_sending.specs.Passing.{PassesOn};

use crate::passing::{ROOM, make_room};
use list_writing::{
    MOST_OF_SET, MOST_OF_VALUE, Scratch, ValueText, begin_set, end_set, write_value,
};
use r53_io::Sink;
use whole_writing::Output;

/// Passes on the set that is held. A later one of a list has a comma in front.
pub fn send_set<K: Sink>(
    later: bool,
    zone: u32,
    scratch: &Scratch,
    value: &mut ValueText,
    text: &mut Vec<u8>,
    out: &mut K,
) -> Output
    requires held { IsHolding scratch.now }
    requires room { ROOM ≤ vec_capacity text.old }
    ensures passes { (set : RecordSet) → scratch.now ≡ Some set
        → PassesOn (K.held out.old) text.old.items (K.held out.new) text.new.items result
        (set_pieces later zone set) }
    ensures capacity { vec_capacity text.old ≤ vec_capacity text.new }
    ensures counts { K.faults out.old ≤ K.faults out.new }
    ensures failed { result ≡ Output.Failed → Rose (K.faults out.old) (K.faults out.new) }
{
    match send_front(later, zone, scratch, text, out) {
        Output::Whole => {}
        Output::Failed => return Output::Failed,
    }
    match send_values(scratch, value, text, out) {
        Output::Whole => {}
        Output::Failed => return Output::Failed,
    }
    send_rest(scratch, text, out)
}

/// Passes on what stands before the values of the set that is held.
fn send_front<K: Sink>(
    later: bool,
    zone: u32,
    scratch: &Scratch,
    text: &mut Vec<u8>,
    out: &mut K,
) -> Output
    requires held { IsHolding scratch.now }
    requires room { ROOM ≤ vec_capacity text.old }
    ensures passes { (set : RecordSet) → scratch.now ≡ Some set
        → PassesOn (K.held out.old) text.old.items (K.held out.new) text.new.items result
        (set_front later zone set) }
    ensures capacity { vec_capacity text.old ≤ vec_capacity text.new }
    ensures counts { K.faults out.old ≤ K.faults out.new }
    ensures failed { result ≡ Output.Failed → Rose (K.faults out.old) (K.faults out.new) }
{
    match make_room(MOST_OF_SET, text, out) {
        Output::Whole => {
            begin_set(later, zone, scratch, text);
            Output::Whole
        }
        Output::Failed => Output::Failed,
    }
}

/// Passes on the values of the set that is held.
fn send_values<K: Sink>(
    scratch: &Scratch,
    value: &mut ValueText,
    text: &mut Vec<u8>,
    out: &mut K,
) -> Output
    requires held { IsHolding scratch.now }
    requires room { ROOM ≤ vec_capacity text.old }
    ensures passes { (set : RecordSet) → scratch.now ≡ Some set
        → PassesOn (K.held out.old) text.old.items (K.held out.new) text.new.items result
        (value_pieces false set.rtype (wires_of set.body)) }
    ensures capacity { vec_capacity text.old ≤ vec_capacity text.new }
    ensures counts { K.faults out.old ≤ K.faults out.new }
    ensures failed { result ≡ Output.Failed → Rose (K.faults out.old) (K.faults out.new) }
{
    for i in 0..scratch.values() {
        match send_value(scratch, i, value, text, out) {
            Output::Whole => {}
            Output::Failed => return Output::Failed,
        }
    }
    Output::Whole
}

/// Passes on the value at this place of the set that is held.
fn send_value<K: Sink>(
    scratch: &Scratch,
    i: usize,
    value: &mut ValueText,
    text: &mut Vec<u8>,
    out: &mut K,
) -> Output
    requires held { HasValue scratch.now i }
    requires room { ROOM ≤ vec_capacity text.old }
    ensures passes { (set : RecordSet) (wire : List ℕ) → scratch.now ≡ Some set
        → slice_get (wires_of set.body) i ≡ Some wire
        → PassesOn (K.held out.old) text.old.items (K.held out.new) text.new.items result
        (value_piece (nat_lt 0 i) set.rtype wire) }
    ensures capacity { vec_capacity text.old ≤ vec_capacity text.new }
    ensures counts { K.faults out.old ≤ K.faults out.new }
    ensures failed { result ≡ Output.Failed → Rose (K.faults out.old) (K.faults out.new) }
{
    match make_room(MOST_OF_VALUE, text, out) {
        Output::Whole => {
            write_value(scratch, i, value, text);
            Output::Whole
        }
        Output::Failed => Output::Failed,
    }
}

/// Passes on what stands behind the values of the set that is held.
fn send_rest<K: Sink>(scratch: &Scratch, text: &mut Vec<u8>, out: &mut K) -> Output
    requires held { IsHolding scratch.now }
    requires room { ROOM ≤ vec_capacity text.old }
    ensures passes { (set : RecordSet) → scratch.now ≡ Some set
        → PassesOn (K.held out.old) text.old.items (K.held out.new) text.new.items result
        (set_rest set) }
    ensures capacity { vec_capacity text.old ≤ vec_capacity text.new }
    ensures counts { K.faults out.old ≤ K.faults out.new }
    ensures failed { result ≡ Output.Failed → Rose (K.faults out.old) (K.faults out.new) }
{
    match make_room(MOST_OF_SET, text, out) {
        Output::Whole => {
            end_set(scratch, text);
            Output::Whole
        }
        Output::Failed => Output::Failed,
    }
}
