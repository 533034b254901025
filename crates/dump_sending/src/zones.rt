//! The lines of zones, each with those of its sets behind it.

ghost use Rattle.std.specs.Prelude.{◌≡◌, ◌≤◌, ℕ, List, vec_capacity};
ghost use Rattle.config_zones.specs.Edited.{hosted_in};
ghost use Rattle.octets.specs.Counts.{Rose};
ghost use Rattle.dump_writing.specs.DumpOfReplyModel.{zone_line};
ghost use Rattle.config_zones.specs.Zones.{IsZoneId, placed_in};
ghost use Rattle.zone_model.specs.Slotted.{sets_of};
ghost use Rattle.config_zones.specs.Looking.{IsApex};
ghost use Rattle.dump_sending.specs.Dumps.{hosted_text, zones_text};
ghost use Rattle.set_sending.specs.Passing.{PassesOn};

use crate::buffer::ROOM;
use crate::sets::send_sets;
use config_zones::{Zones, zones_follow};
use dns_name::Name;
use dump_writing::write_zone_line;
use r53_io::Sink;
use set_sending::{Output, Scratch, ValueText, make_room};

/// Passes on the lines of all zones, by rising number.
pub(crate) fn send_zones<K: Sink>(
    zones: &Zones,
    scratch: &mut Scratch,
    value: &mut ValueText,
    text: &mut Vec<u8>,
    out: &mut K,
) -> Output
    requires room { ROOM ≤ vec_capacity text.old }
    ensures passes { PassesOn (K.held out.old) text.old.items (K.held out.new) text.new.items result
        (zones_text (hosted_in zones.now.zones)) }
    ensures capacity { vec_capacity text.old ≤ vec_capacity text.new }
    ensures counts { K.faults out.old ≤ K.faults out.new }
    ensures failed { result ≡ Output.Failed → Rose (K.faults out.old) (K.faults out.new) }
{
    zones_follow();
    zones.well_formed();
    let mut last = 0;
    while let Some(zone) = zones.zone_after(last) {
        match send_zone(zones, zone, scratch, value, text, out) {
            Output::Whole => {}
            Output::Failed => return Output::Failed,
        }
        last = zone;
    }
    Output::Whole
}

/// Passes on the lines of the zone of a number.
fn send_zone<K: Sink>(
    zones: &Zones,
    zone: u32,
    scratch: &mut Scratch,
    value: &mut ValueText,
    text: &mut Vec<u8>,
    out: &mut K,
) -> Output
    requires there { IsZoneId zones.now.zones zone }
    requires room { ROOM ≤ vec_capacity text.old }
    ensures passes { (apex : List (List ℕ)) × IsApex zones.now.zones zone apex
        × PassesOn (K.held out.old) text.old.items (K.held out.new) text.new.items result
        (hosted_text (record {
          id = zone;
          apex = apex;
          sets = sets_of (placed_in zones.now.zones zone);
        })) }
    ensures capacity { vec_capacity text.old ≤ vec_capacity text.new }
    ensures counts { K.faults out.old ≤ K.faults out.new }
    ensures failed { result ≡ Output.Failed → Rose (K.faults out.old) (K.faults out.new) }
{
    let Some(apex) = zones.apex(zone) else {
        unreachable!();
    };
    send_hosted(zones, zone, &apex, scratch, value, text, out)
}

/// Passes on the line of a zone of this name, and those of its sets.
fn send_hosted<K: Sink>(
    zones: &Zones,
    zone: u32,
    apex: &Name,
    scratch: &mut Scratch,
    value: &mut ValueText,
    text: &mut Vec<u8>,
    out: &mut K,
) -> Output
    requires room { ROOM ≤ vec_capacity text.old }
    ensures passes { PassesOn (K.held out.old) text.old.items (K.held out.new) text.new.items result
        (hosted_text (record {
          id = zone;
          apex = apex.now;
          sets = sets_of (placed_in zones.now.zones zone);
        })) }
    ensures capacity { vec_capacity text.old ≤ vec_capacity text.new }
    ensures counts { K.faults out.old ≤ K.faults out.new }
    ensures failed { result ≡ Output.Failed → Rose (K.faults out.old) (K.faults out.new) }
{
    match send_name(zone, apex, text, out) {
        Output::Whole => send_sets(zones, zone, scratch, value, text, out),
        Output::Failed => Output::Failed,
    }
}

/// Passes on the line of a zone of this name.
fn send_name<K: Sink>(zone: u32, apex: &Name, text: &mut Vec<u8>, out: &mut K) -> Output
    requires { ROOM ≤ vec_capacity text.old }
    ensures passes { PassesOn (K.held out.old) text.old.items (K.held out.new) text.new.items result
        (zone_line zone apex.now) }
    ensures capacity { vec_capacity text.old ≤ vec_capacity text.new }
    ensures counts { K.faults out.old ≤ K.faults out.new }
    ensures failed { result ≡ Output.Failed → Rose (K.faults out.old) (K.faults out.new) }
{
    match make_room(8192, text, out) {
        Output::Whole => {
            write_zone_line(zone, apex, text);
            Output::Whole
        }
        Output::Failed => Output::Failed,
    }
}
