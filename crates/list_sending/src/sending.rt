//! The reply to a line that asks for the sets of a zone.

ghost use Rattle.std.specs.Prelude.{◌≡◌, ◌≤◌, ℕ, List, Some, vec_capacity};
ghost use Rattle.config_zones.specs.Edited.{hosted_in};
ghost use Rattle.config_zones.specs.Configs.{zone_with};
ghost use Rattle.octets.specs.Counts.{Rose};
ghost use Rattle.page_laws.specs.Laws.{IsAsked};
ghost use Rattle.session_model.specs.Replies.{list_text_of};
ghost use Rattle.whole_writing.specs.Output.{OutputOf};
ghost use Rattle.list_sending.specs.Pages.{start_of};

use crate::pages::send_page;
use config_zones::{Refusal, Zones, zones_are_found};
use page_laws::Outcome;
use r53_io::Sink;
use reply_sending::send_outcome;
use set_sending::{Output, ROOM, Scratch, ValueText};
use zone_lines::ListOfSets;

/// Writes the reply to a line that asks for the sets of a zone. It takes no memory.
///
/// What the scratch, the text of a value and the buffer hold before doesn't matter.
pub fn send_list<K: Sink>(
    zones: &Zones,
    asked: &ListOfSets,
    scratch: &mut Scratch,
    value: &mut ValueText,
    text: &mut Vec<u8>,
    out: &mut K,
) -> Output
    requires room { ROOM ≤ vec_capacity text.old }
    requires asked { IsAsked (start_of asked.now) }

    // The sets of the zone from the start on, or that there is no such zone.
    ensures writes { (held : List ℕ) → K.held out.old ≡ Some held
        → OutputOf held (K.held out.new) result
        (list_text_of asked.now (zone_with (hosted_in zones.now.zones) asked.now.zone)) }

    // It fails only where the sink's count rose.
    ensures counts { K.faults out.old ≤ K.faults out.new }
    ensures failed { result ≡ Output.Failed → Rose (K.faults out.old) (K.faults out.new) }

    ensures room { vec_capacity text.old ≤ vec_capacity text.new }
{
    zones.well_formed();
    zones_are_found();
    match zones.apex(asked.zone) {
        Some(_) => send_page(zones, asked, scratch, value, text, out),
        None => send_outcome(&Outcome::Refused(Refusal::NoSuchHostedZone), text, out),
    }
}
