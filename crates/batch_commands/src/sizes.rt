//! How many sets, and how many octets of them, there are after a change.

ghost use Rattle.std.specs.Prelude.{◌≡◌, ◌≤◌, ◌<◌, ◌+◌, ◌^◌, ◌∷◌, [], length};
ghost use Rattle.alias_links.specs.After.{changed_in, sets_in};
ghost use Rattle.config_zones.specs.Edited.{hosted_in};
ghost use Rattle.config_zones.specs.Batches.{is_store_full, is_zone_full, store_refusal};
ghost use Rattle.config_zones.specs.Configs.{with_sets};
ghost use Rattle.config_zones.specs.Telling.{first_of, refuse_if};
ghost use Rattle.config_zones.specs.RefusalRecord.TheVariants as refusal;
ghost use Rattle.config_zones.specs.Changes.{AreThere, without_all};
ghost use Rattle.zone_model.specs.Placing.{IsThere, IsSetOf};
ghost use Rattle.config_zones.specs.Counted.{octets_in_all, sets_in_all};
ghost use Rattle.config_zones.specs.Edits.{IsAllowed};
ghost use Rattle.config_zones.specs.ZoneEditRecord.TheVariants.{Change};
ghost use Rattle.config_zones.specs.Octets.{set_octets};
ghost use Rattle.record_set.specs.declared.sets.RecordSet.{RecordSet};
ghost use Rattle.batch_commands.specs.Sizes.{octets_in};

use config_zones::{Refusal, Scratch, Zones, counts_agree, is_over, octets_in};
use record_set::{RecordSet, SetKey};

/// The most sets of a zone (Route 53 quotas).
const MAX_IN_ZONE: u64 = 10_000;

/// The first refusal of a change for how many sets there would be: in its zone, then in all.
pub fn size_refusal(
    zones: &Zones,
    zone: u32,
    remove: &[SetKey],
    add: &[RecordSet],
    scratch: &mut Scratch,
) -> Option<Refusal>
    requires allowed { IsAllowed zones.now.zones (Change zone remove.now add.now) }
    requires sets { sets_in_all zones.now.zones ≤ 100000 }
    requires octets { octets_in_all zones.now.zones ≤ 67108864 }
    ensures { result ≡ first_of (
        refuse_if (is_zone_full (changed_in zones.now.zones zone remove.now add.now)) refusal.ZoneFull
        ∷ store_refusal (with_sets (hosted_in zones.now.zones) zone
        (changed_in zones.now.zones zone remove.now add.now))
        ∷ []) }
{
    zones.well_formed();
    if is_zone_full(zones, zone, remove, add) {
        return Some(Refusal::ZoneFull);
    }
    if is_store_full(zones, zone, remove, add, scratch) {
        return Some(Refusal::StoreFull);
    }
    None
}

/// Whether the zone would have too many sets.
fn is_zone_full(zones: &Zones, zone: u32, remove: &[SetKey], add: &[RecordSet]) -> bool
    requires allowed { IsAllowed zones.now.zones (Change zone remove.now add.now) }
    requires sets { sets_in_all zones.now.zones ≤ 100000 }
    ensures { result ≡ is_zone_full (changed_in zones.now.zones zone remove.now add.now) }
{
    counts_agree();
    zones.well_formed();
    let count = zones.count(zone);
    let gone = remove.len();
    let come = how_many(add);
    left_with(count as u64, gone as u64, come) > MAX_IN_ZONE
}

/// How many sets these are.
fn how_many(sets: &[RecordSet]) -> u64
    ensures count { result ≡ length sets.now }
    ensures few { result < 2 ^ 63 }
{
    sets.len() as u64
}

/// What is left of a number, with what comes.
fn left_with(all: u64, gone: u64, come: u64) -> u64
    requires gone { gone ≤ all }
    requires few { all + come < 2 ^ 64 }
    ensures { result + gone ≡ all + come }
{
    all - gone + come
}

/// Whether all zones would have too many sets, or too many octets of sets.
fn is_store_full(
    zones: &Zones,
    zone: u32,
    remove: &[SetKey],
    add: &[RecordSet],
    scratch: &mut Scratch,
) -> bool
    requires allowed { IsAllowed zones.now.zones (Change zone remove.now add.now) }
    requires sets { sets_in_all zones.now.zones ≤ 100000 }
    requires octets { octets_in_all zones.now.zones ≤ 67108864 }
    requires few { length add.now ≤ 10000 }
    ensures { result ≡ is_store_full (with_sets (hosted_in zones.now.zones) zone
        (changed_in zones.now.zones zone remove.now add.now)) }
{
    counts_agree();
    zones.well_formed();
    let gone = remove.len();
    let come = add.len();
    let sets = left_with(zones.all_sets(), gone as u64, come as u64);
    let octets_gone = octets_of_keys(zones, zone, remove, scratch);
    let octets_come = octets_in(add);
    let octets = left_with(zones.all_octets(), octets_gone, octets_come);
    is_over(sets, octets)
}

/// How many octets the sets of some keys have, which are there.
fn octets_of_keys(zones: &Zones, zone: u32, keys: &[SetKey], scratch: &mut Scratch) -> u64
    requires there { AreThere (sets_in zones.now.zones zone) keys.now }
    requires octets { octets_in (sets_in zones.now.zones zone) ≤ 67108864 }
    ensures { octets_in (without_all keys.now (sets_in zones.now.zones zone)) + result
        ≡ octets_in (sets_in zones.now.zones zone) }
{
    zones.well_formed();
    let mut octets = 0;
    for i in 0..keys.len() {
        octets += octets_of_key(zones, zone, &keys[i], scratch);
    }
    octets
}

/// How many octets the set of a key has, which is there.
fn octets_of_key(zones: &Zones, zone: u32, key: &SetKey, scratch: &mut Scratch) -> u64
    requires { IsThere (sets_in zones.now.zones zone) key.now }
    ensures { (set : RecordSet) × IsSetOf (sets_in zones.now.zones zone) key.now set
        × (result ≡ length (set_octets set)) }
{
    zones.well_formed();
    let Some(set) = zones.next_from(zone, key, false) else {
        unreachable!();
    };
    if !zones.load(set, scratch) {
        unreachable!();
    }
    scratch.bytes().len() as u64
}
