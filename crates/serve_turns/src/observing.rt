//! Reports of health checkers.

ghost use Rattle.std.specs.Prelude.{◌≡◌, ◌<◌, IsTrue, option_map};
ghost use Rattle.geo_latency.specs.declared.tables.Tables.{Tables};
ghost use Rattle.session_model.specs.Engine.{Engine, ReportSteps};
ghost use Rattle.r53_core.specs.Stores.{StandsFor};
ghost use Rattle.serve_turns.specs.Settled.{Serves};
ghost use Rattle.serve_turns.specs.Turning.{GoesOn, IsReported};

use packet_cache::PacketCache;
use r53_core::{Reported, Steps, Store};
use report_lines::{Observation, read_report};
use std::marker::Brand;
use std::sync::ledger::{Blank, Ledger};

/// Takes a datagram of the report port, and tells whether it is a report that counts. Where the status of its check
/// changes, no reply is kept any more.
pub(crate) fn observe(store: &mut Store, datagram: &[u8], replies: &mut PacketCache) -> bool
    ensures taken { (engine : Engine) (tables : Tables) → Serves engine tables store.old replies.old
        → IsReported result engine datagram.now (λ after. Serves after tables store.new replies.new) }
    ensures reports { GoesOn store.old store.new }
    ensures kept { store.new.kept ≡ store.old.kept }
{
    let Some(seen) = read_report(datagram) else {
        return false;
    };
    let before = store.check_status(seen.id);
    match take_once(store, seen) {
        Reported::Taken => {
            if !is_same_status(before, store.check_status(seen.id)) {
                replies.clear();
            }
            true
        }
        Reported::NoSuchHealthCheck => false,
        Reported::BadChecker => false,
    }
}

/// Whether a check has one status in both, as they are told with its number.
fn is_same_status(before: Option<(bool, u16)>, after: Option<(bool, u16)>) -> bool
    ensures { IsTrue result → option_map (λ told. told.0) before ≡ option_map (λ told. told.0) after }
{
    match (before, after) {
        (Some((old, _)), Some((new, _))) => old == new,
        _ => false,
    }
}

/// Takes a report.
fn take_once(store: &mut Store, seen: Observation) -> Reported
    ensures reports { (engine : Engine) → StandsFor engine store.old
        → (after : Engine) × ReportSteps engine seen.id seen.checker seen.pass result after
        × StandsFor after store.new }
    ensures kept { store.new.kept ≡ store.old.kept }
{
    take::<Brand>(Blank::new(1), store, seen)
}

/// The same, counted in a ledger of its own.
fn take<L: Ledger>(blank: Blank, store: &mut Store, seen: Observation) -> Reported
    requires name { blank.name ≡ L.name }
    requires parts { blank.parts ≡ L.parts }
    requires some { 0 < blank.parts }
    ensures reports { (engine : Engine) → StandsFor engine store.old
        → (after : Engine) × ReportSteps engine seen.id seen.checker seen.pass result after
        × StandsFor after store.new }
    ensures kept { store.new.kept ≡ store.old.kept }
{
    let mut steps = Steps::<L>::new(blank);
    store.report(seen.id, seen.checker, seen.pass, &mut steps)
}
