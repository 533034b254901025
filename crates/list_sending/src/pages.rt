//! The sets of a page, passed on one after another, and what stands round them.

ghost use Rattle.std.specs.Prelude.{◌≡◌, ◌≤◌, ◌<◌, ◌+◌, ◌++◌, ℕ, List, [], Some, false, length};
ghost use Rattle.std.specs.Prelude.{drop, slice_get, take, vec_capacity};
ghost use Rattle.set_sending.specs.PiecesOfListWriting.{list_rest, set_pieces, sets_pieces};
ghost use Rattle.octets.specs.Counts.{Rose};
ghost use Rattle.page_laws.specs.Laws.{IsAsked};
ghost use Rattle.record_set.specs.declared.sets.RecordSet.{RecordSet};
ghost use Rattle.page_laws.specs.Json.{line_of};
ghost use Rattle.page_laws.specs.Paging.{page_reply};
ghost use Rattle.whole_writing.specs.Output.{OutputOf};
ghost use Rattle.config_zones.specs.Zones.{placed_in};
ghost use Rattle.list_sending.specs.Pages.{sets_in, start_of};
ghost use Rattle.set_sending.specs.Passing.{IsPassed, PassesOn};

use crate::places::{key_at, page_of};
use config_zones::{Zones, hold_at};
use r53_io::Sink;
use set_sending::{
    Output, ROOM, Scratch, ValueText, begin_list, end_list, lists_are_whole, make_room, send_last,
    send_set,
};
use zone_lines::ListOfSets;

/// Writes the page of a list: its head, its sets, and its end.
pub(crate) fn send_page<K: Sink>(
    zones: &Zones,
    asked: &ListOfSets,
    scratch: &mut Scratch,
    value: &mut ValueText,
    text: &mut Vec<u8>,
    out: &mut K,
) -> Output
    requires asked { IsAsked (start_of asked.now) }
    requires room { ROOM ≤ vec_capacity text.old }
    ensures writes { (held : List ℕ) → K.held out.old ≡ Some held
        → OutputOf held (K.held out.new) result (line_of (page_reply asked.now.zone
        (start_of asked.now) asked.now.items (sets_in zones.now.zones asked.now.zone))) }
    ensures capacity { vec_capacity text.old ≤ vec_capacity text.new }
    ensures counts { K.faults out.old ≤ K.faults out.new }
    ensures failed { result ≡ Output.Failed → Rose (K.faults out.old) (K.faults out.new) }
{
    zones.well_formed();
    lists_are_whole();
    let (first, end) = page_of(zones, asked, scratch);
    let next = key_at(zones, asked.zone, end, scratch);
    text.clear();
    begin_list(&next, text);
    match send_sets(zones, asked.zone, first, end, scratch, value, text, out) {
        Output::Whole => send_end(text, out),
        Output::Failed => Output::Failed,
    }
}

/// Passes on the sets of a zone from a place on, and up to another.
fn send_sets<K: Sink>(
    zones: &Zones,
    zone: u32,
    first: usize,
    end: usize,
    scratch: &mut Scratch,
    value: &mut ValueText,
    text: &mut Vec<u8>,
    out: &mut K,
) -> Output
    requires within { end ≤ length (placed_in zones.now.zones zone) }
    requires room { ROOM ≤ vec_capacity text.old }
    ensures passes { PassesOn (K.held out.old) text.old.items (K.held out.new) text.new.items result
        (sets_pieces false zone (drop first (take end (sets_in zones.now.zones zone)))) }
    ensures capacity { vec_capacity text.old ≤ vec_capacity text.new }
    ensures counts { K.faults out.old ≤ K.faults out.new }
    ensures failed { result ≡ Output.Failed → Rose (K.faults out.old) (K.faults out.new) }
{
    let mut later = false;
    for place in first..end {
        match send_at(later, zones, zone, place, scratch, value, text, out) {
            Output::Whole => {}
            Output::Failed => return Output::Failed,
        }
        later = true;
    }
    Output::Whole
}

/// Passes on the set at a place of a zone.
fn send_at<K: Sink>(
    later: bool,
    zones: &Zones,
    zone: u32,
    place: usize,
    scratch: &mut Scratch,
    value: &mut ValueText,
    text: &mut Vec<u8>,
    out: &mut K,
) -> Output
    requires within { place < length (placed_in zones.now.zones zone) }
    requires room { ROOM ≤ vec_capacity text.old }
    ensures passes { (set : RecordSet) → slice_get (sets_in zones.now.zones zone) place ≡ Some set
        → PassesOn (K.held out.old) text.old.items (K.held out.new) text.new.items result
        (set_pieces later zone set) }
    ensures capacity { vec_capacity text.old ≤ vec_capacity text.new }
    ensures counts { K.faults out.old ≤ K.faults out.new }
    ensures failed { result ≡ Output.Failed → Rose (K.faults out.old) (K.faults out.new) }
{
    hold_at(zones, zone, place, scratch);
    send_set(later, zone, scratch, value, text, out)
}

/// Writes out the end of a list.
fn send_end<K: Sink>(text: &mut Vec<u8>, out: &mut K) -> Output
    requires { ROOM ≤ vec_capacity text.old }
    ensures writes { (held whole : List ℕ)
        → IsPassed held (K.held out.old) text.old.items (list_rest ++ []) whole
        → OutputOf held (K.held out.new) result whole }
    ensures capacity { vec_capacity text.old ≤ vec_capacity text.new }
    ensures counts { K.faults out.old ≤ K.faults out.new }
    ensures failed { result ≡ Output.Failed → Rose (K.faults out.old) (K.faults out.new) }
{
    match make_room(3, text, out) {
        Output::Whole => {
            end_list(text);
            send_last(text, out)
        }
        Output::Failed => Output::Failed,
    }
}
