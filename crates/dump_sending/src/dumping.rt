//! All lines of a dump, one kind behind another.

ghost use Rattle.std.specs.Prelude.{◌≡◌, ◌≤◌, ◌++◌, ℕ, List, Some, vec_capacity};
ghost use Rattle.config_zones.specs.Edited.{hosted_in};
ghost use Rattle.config_zones.specs.Configured.{config_of};
ghost use Rattle.octets.specs.Counts.{Rose};
ghost use Rattle.whole_writing.specs.Output.{OutputOf};
ghost use Rattle.dump_sending.specs.Dumps.{checks_text, collections_text, dump_text, zones_text};
ghost use Rattle.set_sending.specs.Passing.{PassesOn};

use crate::buffer::ROOM;
use crate::checks::send_checks;
use crate::collections::send_collections;
use crate::zones::send_zones;
use config_zones::Zones;
use health_check::CheckTable;
use r53_io::Sink;
use set_sending::{Output, Scratch, ValueText, send_last};

/// Writes all lines of a dump of a configuration: those of its health checks, of its collections,
/// and of its zones with their sets. It takes no memory.
///
/// The collections are those of the zones. What the scratch, the text of a value and the buffer hold
/// before doesn't matter.
pub fn send_dump<K: Sink>(
    zones: &Zones,
    checks: &CheckTable,
    scratch: &mut Scratch,
    value: &mut ValueText,
    text: &mut Vec<u8>,
    out: &mut K,
) -> Output
    requires room { ROOM ≤ vec_capacity text.old }

    // All lines, or a first part of them that isn't the whole. No line tells the number that the next
    // zone gets.
    ensures writes { (held : List ℕ) (next : ℕ) → K.held out.old ≡ Some held
        → OutputOf held (K.held out.new) result
        (dump_text (config_of zones.now checks.now.checks next)) }

    // It fails only where the sink's count rose.
    ensures counts { K.faults out.old ≤ K.faults out.new }
    ensures failed { result ≡ Output.Failed → Rose (K.faults out.old) (K.faults out.new) }

    ensures room { vec_capacity text.old ≤ vec_capacity text.new }
{
    text.clear();
    match send_lines(zones, checks, scratch, value, text, out) {
        Output::Whole => send_last(text, out),
        Output::Failed => Output::Failed,
    }
}

/// Passes on all lines of a dump.
fn send_lines<K: Sink>(
    zones: &Zones,
    checks: &CheckTable,
    scratch: &mut Scratch,
    value: &mut ValueText,
    text: &mut Vec<u8>,
    out: &mut K,
) -> Output
    requires room { ROOM ≤ vec_capacity text.old }
    ensures passes { PassesOn (K.held out.old) text.old.items (K.held out.new) text.new.items result
        (checks_text checks.now.checks.list
        ++ (collections_text zones.now.collections.list
        ++ zones_text (hosted_in zones.now.zones))) }
    ensures capacity { vec_capacity text.old ≤ vec_capacity text.new }
    ensures counts { K.faults out.old ≤ K.faults out.new }
    ensures failed { result ≡ Output.Failed → Rose (K.faults out.old) (K.faults out.new) }
{
    let held = checks.as_slice();
    let collections = zones.collections().as_slice();
    match send_checks(held, text, out) {
        Output::Whole => {}
        Output::Failed => return Output::Failed,
    }
    match send_collections(collections, text, out) {
        Output::Whole => send_zones(zones, scratch, value, text, out),
        Output::Failed => Output::Failed,
    }
}
