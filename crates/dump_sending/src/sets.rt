//! The lines of the sets of a zone, each passed on from its stored octets.

ghost use Rattle.std.specs.Prelude.{◌≡◌, ◌≤◌, ◌<◌, ◌++◌, Some, false, length, slice_get};
ghost use Rattle.std.specs.Prelude.{vec_capacity};
ghost use Rattle.set_sending.specs.PiecesOfListWriting.{set_line_front, set_line_rest, set_pieces};
ghost use Rattle.octets.specs.Counts.{Rose};
ghost use Rattle.record_set.specs.declared.sets.RecordSet.{RecordSet};
ghost use Rattle.dump_writing.specs.DumpOfReplyModel.{set_line};
ghost use Rattle.set_scratch.specs.Holding.{IsHolding};
ghost use Rattle.config_zones.specs.Zones.{placed_in};
ghost use Rattle.zone_model.specs.Slotted.{sets_of};
ghost use Rattle.dump_sending.specs.Dumps.{sets_text};
ghost use Rattle.set_sending.specs.Passing.{PassesOn};

use crate::buffer::ROOM;
use config_zones::{Zones, hold_at};
use r53_io::Sink;
use set_sending::{
    Output, Scratch, ValueText, begin_set_line, end_set_line, make_room, send_set,
    set_lines_are_whole,
};

/// Passes on the lines of the sets of a zone, in zone order.
pub(crate) fn send_sets<K: Sink>(
    zones: &Zones,
    zone: u32,
    scratch: &mut Scratch,
    value: &mut ValueText,
    text: &mut Vec<u8>,
    out: &mut K,
) -> Output
    requires room { ROOM ≤ vec_capacity text.old }
    ensures passes { PassesOn (K.held out.old) text.old.items (K.held out.new) text.new.items result
        (sets_text zone (sets_of (placed_in zones.now.zones zone))) }
    ensures capacity { vec_capacity text.old ≤ vec_capacity text.new }
    ensures counts { K.faults out.old ≤ K.faults out.new }
    ensures failed { result ≡ Output.Failed → Rose (K.faults out.old) (K.faults out.new) }
{
    for i in 0..zones.count(zone) {
        match send_at(zones, zone, i, scratch, value, text, out) {
            Output::Whole => {}
            Output::Failed => return Output::Failed,
        }
    }
    Output::Whole
}

/// Passes on the line of the set at a place of a zone.
fn send_at<K: Sink>(
    zones: &Zones,
    zone: u32,
    i: usize,
    scratch: &mut Scratch,
    value: &mut ValueText,
    text: &mut Vec<u8>,
    out: &mut K,
) -> Output
    requires within { i < length (placed_in zones.now.zones zone) }
    requires room { ROOM ≤ vec_capacity text.old }
    ensures passes { (set : RecordSet)
        → slice_get (sets_of (placed_in zones.now.zones zone)) i ≡ Some set
        → PassesOn (K.held out.old) text.old.items (K.held out.new) text.new.items result
        (set_line zone set) }
    ensures capacity { vec_capacity text.old ≤ vec_capacity text.new }
    ensures counts { K.faults out.old ≤ K.faults out.new }
    ensures failed { result ≡ Output.Failed → Rose (K.faults out.old) (K.faults out.new) }
{
    set_lines_are_whole();
    hold_at(zones, zone, i, scratch);
    send_held(zone, scratch, value, text, out)
}

/// Passes on the line of the set that is held: its pieces, and what stands round them.
fn send_held<K: Sink>(
    zone: u32,
    scratch: &Scratch,
    value: &mut ValueText,
    text: &mut Vec<u8>,
    out: &mut K,
) -> Output
    requires held { IsHolding scratch.now }
    requires room { ROOM ≤ vec_capacity text.old }
    ensures passes { (set : RecordSet) → scratch.now ≡ Some set
        → PassesOn (K.held out.old) text.old.items (K.held out.new) text.new.items result
        (set_line_front ++ (set_pieces false zone set ++ set_line_rest)) }
    ensures capacity { vec_capacity text.old ≤ vec_capacity text.new }
    ensures counts { K.faults out.old ≤ K.faults out.new }
    ensures failed { result ≡ Output.Failed → Rose (K.faults out.old) (K.faults out.new) }
{
    match begin_line(text, out) {
        Output::Whole => {}
        Output::Failed => return Output::Failed,
    }
    match send_set(false, zone, scratch, value, text, out) {
        Output::Whole => end_line(text, out),
        Output::Failed => Output::Failed,
    }
}

/// Passes on what stands before the pieces of a set.
fn begin_line<K: Sink>(text: &mut Vec<u8>, out: &mut K) -> Output
    requires { ROOM ≤ vec_capacity text.old }
    ensures passes { PassesOn (K.held out.old) text.old.items (K.held out.new) text.new.items result
        set_line_front }
    ensures capacity { vec_capacity text.old ≤ vec_capacity text.new }
    ensures counts { K.faults out.old ≤ K.faults out.new }
    ensures failed { result ≡ Output.Failed → Rose (K.faults out.old) (K.faults out.new) }
{
    match make_room(32, text, out) {
        Output::Whole => {
            begin_set_line(text);
            Output::Whole
        }
        Output::Failed => Output::Failed,
    }
}

/// Passes on what stands behind the pieces of a set.
fn end_line<K: Sink>(text: &mut Vec<u8>, out: &mut K) -> Output
    requires { ROOM ≤ vec_capacity text.old }
    ensures passes { PassesOn (K.held out.old) text.old.items (K.held out.new) text.new.items result
        set_line_rest }
    ensures capacity { vec_capacity text.old ≤ vec_capacity text.new }
    ensures counts { K.faults out.old ≤ K.faults out.new }
    ensures failed { result ≡ Output.Failed → Rose (K.faults out.old) (K.faults out.new) }
{
    match make_room(2, text, out) {
        Output::Whole => {
            end_set_line(text);
            Output::Whole
        }
        Output::Failed => Output::Failed,
    }
}
