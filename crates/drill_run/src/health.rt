//! How many sets of a zone are healthy.

ghost use Rattle.std.specs.Prelude.{◌≡◌, ◌≤◌, ◌<◌, cond, length, slice_get, Some};
ghost use Rattle.drill_run.specs.Drills.{healthy_in};
ghost use Rattle.engine_model.specs.Engine.{Engine, is_healthy};
ghost use Rattle.r53_core.specs.Stores.{StandsFor};
ghost use Rattle.record_set.specs.Sets.{key_of};
ghost use Rattle.record_set.specs.declared.sets.RecordSet.{RecordSet};
ghost use Rattle.zone_table.specs.Zones.{placed_in};
ghost use Rattle.zone_model.specs.Slotted.{sets_of};

use r53_core::Store;

/// The number of the first zone.
const FIRST_ZONE: u32 = 1;

/// How many sets of the first zone are healthy.
pub(crate) fn count_healthy(store: &Store) -> u64
    ensures { (engine : Engine) → StandsFor engine store.now → result ≡ healthy_in engine }
{
    let mut count: u64 = 0;
    for i in 0..store.zones().count(FIRST_ZONE) {
        count += one_at(store, i);
    }
    count
}

/// One where the set at a place of the first zone is healthy, and none where it isn't.
fn one_at(store: &Store, i: usize) -> u64
    requires { i < length (placed_in store.now.kept.config.table.zones 1) }
    ensures is { (engine : Engine) (set : RecordSet) → StandsFor engine store.now
        → slice_get (sets_of (placed_in store.now.kept.config.table.zones 1)) i ≡ Some set
        → result ≡ cond (is_healthy engine.config engine.reports 1 (key_of set)) 1 0 }
    ensures within { result ≤ 1 }
{
    if is_healthy_at(store, i) { 1 } else { 0 }
}

/// Whether the set at a place of the first zone is healthy.
fn is_healthy_at(store: &Store, i: usize) -> bool
    requires { i < length (placed_in store.now.kept.config.table.zones 1) }
    ensures { (engine : Engine) (set : RecordSet) → StandsFor engine store.now
        → slice_get (sets_of (placed_in store.now.kept.config.table.zones 1)) i ≡ Some set
        → result ≡ is_healthy engine.config engine.reports 1 (key_of set) }
{
    match store.zones().at(FIRST_ZONE, i) {
        Some(set) => store.is_healthy(set),
        None => false,
    }
}
