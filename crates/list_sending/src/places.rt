//! Where the page of a list stands among the sets of its zone.

ghost use Rattle.std.specs.Prelude.{◌≡◌, ◌≤◌, ◌<◌, ◌-◌, ◌+◌, ℕ, Some, length, slice_get};
ghost use Rattle.std.specs.Option.{option_map};
ghost use Rattle.page_laws.specs.Laws.{IsAsked};
ghost use Rattle.record_set.specs.Sets.{key_of};
ghost use Rattle.record_set.specs.declared.sets.RecordSet.{RecordSet};
ghost use Rattle.set_search.specs.Found.{IsBracket, IsCount};
ghost use Rattle.set_search.specs.declared.bounds.Bound.TheVariants.{From};
ghost use Rattle.config_zones.specs.Zones.{placed_in};
ghost use Rattle.zone_model.specs.Placing.{comes_before};
ghost use Rattle.list_sending.specs.Pages.{IsFirst, IsPage, sets_in, start_of};

use config_zones::{Scratch, Zones, hold_at};
use page_laws::starts_are_places;
use rdata_layout::RType;
use record_set::SetKey;
use zone_lines::ListOfSets;
use zone_model::key_cmp;

/// The place of the first set that a list gives, and the one behind the last.
pub(crate) fn page_of(zones: &Zones, asked: &ListOfSets, scratch: &mut Scratch) -> (usize, usize)
    requires { IsAsked (start_of asked.now) }
    ensures { IsPage (start_of asked.now) asked.now.items
        (sets_in zones.now.zones asked.now.zone) result.0 result.1 }
{
    let first = first_of(zones, asked, scratch);
    let count = zones.count(asked.zone);
    let items = usize::from(asked.items);
    if items < count - first {
        return (first, first + items);
    }
    (first, count)
}

/// The place of the first set of a list.
fn first_of(zones: &Zones, asked: &ListOfSets, scratch: &mut Scratch) -> usize
    requires { IsAsked (start_of asked.now) }
    ensures { IsFirst (start_of asked.now) (sets_in zones.now.zones asked.now.zone) result }
{
    starts_are_places();
    match asked.name {
        Some(name) => {
            let key = SetKey {
                name,
                rtype: asked.rtype.unwrap_or(RType::A),
                ident: asked.ident,
            };
            place_of(zones, asked.zone, &key, scratch)
        }
        None => 0,
    }
}

/// The place of the first set that doesn't come before a key.
fn place_of(zones: &Zones, zone: u32, key: &SetKey, scratch: &mut Scratch) -> usize
    ensures { IsCount (sets_in zones.now.zones zone) (From key.now) result }
{
    let mut low = 0;
    let mut high = zones.count(zone);
    while low < high {
        let place = low + (high - low) / 2;
        let (next_low, next_high) = look_at(zones, zone, key, low, high, place, scratch);
        low = next_low;
        high = next_high;
    }
    low
}

/// Looks at the set at a place between two others, and so gets nearer.
fn look_at(
    zones: &Zones,
    zone: u32,
    key: &SetKey,
    low: usize,
    high: usize,
    place: usize,
    scratch: &mut Scratch,
) -> (usize, usize)
    requires bracket { IsBracket (sets_in zones.now.zones zone) (From key.now) low high }
    requires from { low ≤ place }
    requires to { place < high }
    ensures bracket { IsBracket (sets_in zones.now.zones zone) (From key.now) result.0 result.1 }
    ensures nearer { result.1 - result.0 < high - low }
{
    zones.well_formed();
    if comes_before(zones, zone, key, place, scratch) {
        return (place + 1, high);
    }
    (low, place)
}

/// Whether the set at a place comes before a key.
fn comes_before(zones: &Zones, zone: u32, key: &SetKey, place: usize, scratch: &mut Scratch) -> bool
    requires { place < length (placed_in zones.now.zones zone) }
    ensures { (set : RecordSet) → slice_get (sets_in zones.now.zones zone) place ≡ Some set
        → result ≡ comes_before key.now set }
{
    hold_at(zones, zone, place, scratch);
    key_cmp(&scratch.key(), key).is_lt()
}

/// The key of the set at a place. None where there are no more sets.
pub(crate) fn key_at(
    zones: &Zones,
    zone: u32,
    place: usize,
    scratch: &mut Scratch,
) -> Option<SetKey>
    ensures { result ≡ option_map key_of (slice_get (sets_in zones.now.zones zone) place) }
{
    if place >= zones.count(zone) {
        return None;
    }
    hold_at(zones, zone, place, scratch);
    Some(scratch.key())
}
