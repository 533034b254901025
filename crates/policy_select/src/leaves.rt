//! The choices of the policies, over lists of what the sets of a group say.

ghost use Rattle.std.specs.Prelude.{◌≡◌, ◌<◌, ◌≤◌, IfSome, IsSome, length};
ghost use Rattle.std.specs.Option.{option_copied, option_map};
ghost use Rattle.answer_model.specs.Choice.{each};
ghost use Rattle.answer_model.specs.Policies.{location_of, place_of, region_of, role_of, weight_of};
ghost use Rattle.answer_model.specs.Location.{scope_in, told_in};
ghost use Rattle.zone_table.specs.Choice.{chosen as block_chosen};
ghost use Rattle.failover.specs.Choice.{chosen as role_chosen};
ghost use Rattle.answer_model.specs.Places.{chosen as place_chosen};
ghost use Rattle.answer_model.specs.Regions.{chosen as region_chosen};
ghost use Rattle.multivalue.specs.Answer.{picked};
ghost use Rattle.multivalue.specs.Choice.{chosen as several_chosen};
ghost use Rattle.weighted.specs.Choice.{chosen as weight_chosen};
ghost use Rattle.zone_table.specs.Looking.{IsGroupNow};
ghost use Rattle.policy_select.specs.Members.{AreMembers, PoliciesAreAt};
ghost use Rattle.policy_select.specs.Nearby.{noted};
ghost use Rattle.policy_select.specs.Groups.{flags_in, sets_in};
ghost use Rattle.policy_select.specs.Rules.{FirstSays};

use crate::client::{latencies_of, location_of};
use crate::lists::{
    Walked, note_healthy, note_locations, note_near, note_regions, note_roles, note_slowness,
    note_weights,
};
use crate::near::nearby_decide;
use crate::soonest::soonest;
use crate::view::HealthView;
use address_text::IpAddress;
use answer_model::{Latencies, Location, Tables};
use multivalue::Picked;
use routing::{Continent, Place, Region, Role};
use zone_table::{Group, Ident, Scratch, Zones};

/// The most sets of a group (Route 53 quotas).
const GROUP: usize = 100;

/// The sets of most groups. Room for the regions of more takes thousands of octets, which are all
/// filled.
const FEW: usize = 24;

/// The sets of most geolocation groups that may apply to one client: those for its country, for
/// continents, for subdivisions and for anywhere. Where more may, they are walked again in room for
/// all.
const NEAR: usize = 16;

/// Chooses from a weighted group.
pub(crate) fn choose_weighted<V: HealthView>(
    zones: &Zones,
    group: Group,
    view: &V,
    first: u8,
    word: u64,
    at: usize,
) -> usize
    requires group { IsGroupNow zones.now.zones group }
    requires at { PoliciesAreAt (sets_in zones.now.zones group) at }
    requires first { FirstSays weight_of first (sets_in zones.now.zones group) }
    requires some { 0 < group.length }
    requires few { group.length ≤ 100 }
    ensures { result
        ≡ weight_chosen (each weight_of first (sets_in zones.now.zones group))
        (flags_in zones.now.zones (V.test view.now) group) word }
{
    let mut healthy = [false; GROUP];
    let slots = zones.slots_of(group);
    note_healthy(zones, group, slots, view, &mut healthy);
    let mut weights = [0; GROUP];
    note_weights(zones, group, slots, at, first, &mut weights);
    weighted::choose(&weights[..group.length], &healthy[..group.length], word)
}

/// Chooses from a failover group.
pub(crate) fn choose_failover<V: HealthView>(
    zones: &Zones,
    group: Group,
    view: &V,
    first: Role,
    at: usize,
) -> usize
    requires group { IsGroupNow zones.now.zones group }
    requires at { PoliciesAreAt (sets_in zones.now.zones group) at }
    requires first { FirstSays role_of first (sets_in zones.now.zones group) }
    requires some { 0 < group.length }
    requires few { group.length ≤ 100 }
    ensures { result
        ≡ role_chosen (each role_of first (sets_in zones.now.zones group))
        (flags_in zones.now.zones (V.test view.now) group) }
{
    let mut healthy = [false; GROUP];
    let slots = zones.slots_of(group);
    note_healthy(zones, group, slots, view, &mut healthy);
    let mut roles = [first; GROUP];
    note_roles(zones, group, slots, at, first, &mut roles);
    failover::choose(&roles[..group.length], &healthy[..group.length])
}

/// Chooses from a geolocation group, and tells the scope of the client's place.
pub(crate) fn choose_place<V: HealthView>(
    zones: &Zones,
    group: Group,
    view: &V,
    first: &Place,
    tables: &Tables,
    client: IpAddress,
    at: usize,
) -> (Option<usize>, u8)
    requires group { IsGroupNow zones.now.zones group }
    requires at { PoliciesAreAt (sets_in zones.now.zones group) at }
    requires first { FirstSays place_of first.now (sets_in zones.now.zones group) }
    requires few { group.length ≤ 100 }
    ensures place { result.0
        ≡ place_chosen (each place_of first.now (sets_in zones.now.zones group))
        (flags_in zones.now.zones (V.test view.now) group) (told_in tables.now.places client) }
    ensures scope { result.1 ≡ scope_in tables.now.places client }
{
    let (location, scope) = location_of(tables, client);
    let nearest = nearest_place(
        zones,
        group,
        view,
        first,
        location,
        at,
        // Of zeros, which are made at once.
        &mut [Place::Continent(Continent::Af); NEAR],
        &mut [false; NEAR],
        &mut [0; NEAR],
    );
    match nearest {
        Some(set) => (set, scope),
        None => (
            place_of_many(zones, group, view, first, location, at),
            scope,
        ),
    }
}

/// Chooses from a geolocation group by the location of the client, in room for all of its sets.
// Apart, so that others pass by the room for so many places.
#[inline(never)]
fn place_of_many<V: HealthView>(
    zones: &Zones,
    group: Group,
    view: &V,
    first: &Place,
    location: Option<&Location>,
    at: usize,
) -> Option<usize>
    requires group { IsGroupNow zones.now.zones group }
    requires at { PoliciesAreAt (sets_in zones.now.zones group) at }
    requires few { group.length ≤ 100 }
    ensures { result
        ≡ place_chosen (each place_of first.now (sets_in zones.now.zones group))
        (flags_in zones.now.zones (V.test view.now) group) (option_copied location.entry) }
{
    let nearest = nearest_place(
        zones,
        group,
        view,
        first,
        location,
        at,
        &mut [Place::Continent(Continent::Af); GROUP],
        &mut [false; GROUP],
        &mut [0; GROUP],
    );
    match nearest {
        Some(set) => set,
        None => unreachable!(),
    }
}

/// Chooses from a geolocation group by the location of the client, in room for the sets that may
/// apply to it. None where more of them may apply than there is room for.
#[inline(always)]
fn nearest_place<V: HealthView>(
    zones: &Zones,
    group: Group,
    view: &V,
    first: &Place,
    location: Option<&Location>,
    at: usize,
    places: &mut [Place],
    healthy: &mut [bool],
    sets: &mut [usize],
) -> Option<Option<usize>>
    requires group { IsGroupNow zones.now.zones group }
    requires at { PoliciesAreAt (sets_in zones.now.zones group) at }
    requires healthy { length places.old ≤ length healthy.old }
    requires sets { length places.old ≤ length sets.old }
    ensures nearest { IfSome result (λ set. set
        ≡ place_chosen (each place_of first.now (sets_in zones.now.zones group))
        (flags_in zones.now.zones (V.test view.now) group) (option_copied location.entry)) }
    ensures room { group.length ≤ length places.old → IsSome result }
{
    nearby_decide();
    let slots = zones.slots_of(group);
    let count = match note_near(
        zones, group, slots, view, at, first, location, places, healthy, sets,
    ) {
        Walked::Found(set) => return Some(Some(set)),
        Walked::Listed(count) => count,
        Walked::Full => return None,
    };
    let nearest = answer_model::choose_place(&places[..count], &healthy[..count], location);
    Some(place_noted(nearest, &sets[..count]))
}

/// The place in the group of a noted set.
fn place_noted(place: Option<usize>, sets: &[usize]) -> Option<usize>
    requires { IfSome place (λ k. k < length sets.now) }
    ensures { result ≡ option_map (noted sets.now) place }
{
    match place {
        Some(k) => Some(sets[k]),
        None => None,
    }
}

/// Chooses from a latency group, and tells the scope of the client's latencies.
pub(crate) fn choose_region<V: HealthView>(
    zones: &Zones,
    group: Group,
    view: &V,
    first: &Region,
    tables: &Tables,
    client: IpAddress,
    at: usize,
) -> (usize, u8)
    requires group { IsGroupNow zones.now.zones group }
    requires at { PoliciesAreAt (sets_in zones.now.zones group) at }
    requires first { FirstSays region_of first.now (sets_in zones.now.zones group) }
    requires some { 0 < group.length }
    requires few { group.length ≤ 100 }
    ensures place { result.0
        ≡ region_chosen (each region_of first.now (sets_in zones.now.zones group))
        (flags_in zones.now.zones (V.test view.now) group)
        (told_in tables.now.latencies client) }
    ensures scope { result.1 ≡ scope_in tables.now.latencies client }
{
    let (latencies, scope) = latencies_of(tables, client);
    let place = match latencies {
        None => first_by_name(zones, group, view, first, latencies, at),
        Some(_) => first_by_latency(zones, group, view, first, latencies, at),
    };
    (place, scope)
}

/// Chooses from a latency group by the latencies of the client.
#[inline(always)]
fn first_by_latency<V: HealthView>(
    zones: &Zones,
    group: Group,
    view: &V,
    first: &Region,
    latencies: Option<&Latencies>,
    at: usize,
) -> usize
    requires group { IsGroupNow zones.now.zones group }
    requires at { PoliciesAreAt (sets_in zones.now.zones group) at }
    requires first { FirstSays region_of first.now (sets_in zones.now.zones group) }
    requires some { 0 < group.length }
    requires few { group.length ≤ 100 }
    ensures { result
        ≡ region_chosen (each region_of first.now (sets_in zones.now.zones group))
        (flags_in zones.now.zones (V.test view.now) group) (option_copied latencies.entry) }
{
    let soonest = if group.length <= FEW {
        soonest_in(
            zones,
            group,
            view,
            first,
            latencies,
            at,
            &mut [0; FEW],
            &mut [false; FEW],
        )
    } else {
        soonest_of_many(zones, group, view, first, latencies, at)
    };
    match soonest {
        Some(place) => place,
        None => first_by_name(zones, group, view, first, latencies, at),
    }
}

/// The place of the set of a latency group of which the region is less slow for the client than those
/// of all other considered sets, where there is one, in room for what is noted.
#[inline(always)]
fn soonest_in<V: HealthView>(
    zones: &Zones,
    group: Group,
    view: &V,
    first: &Region,
    latencies: Option<&Latencies>,
    at: usize,
    slow: &mut [u64],
    healthy: &mut [bool],
) -> Option<usize>
    requires group { IsGroupNow zones.now.zones group }
    requires at { PoliciesAreAt (sets_in zones.now.zones group) at }
    requires slow { group.length ≤ length slow.old }
    requires healthy { group.length ≤ length healthy.old }
    ensures { IfSome result (λ place. place
        ≡ region_chosen (each region_of first.now (sets_in zones.now.zones group))
        (flags_in zones.now.zones (V.test view.now) group) (option_copied latencies.entry)) }
{
    let slots = zones.slots_of(group);
    note_healthy(zones, group, slots, view, healthy);
    note_slowness(zones, group, slots, at, first, latencies, slow);
    soonest(&slow[..group.length], &healthy[..group.length])
}

/// The same of a group of many sets.
// Apart, so that others pass by the room for so many.
#[inline(never)]
fn soonest_of_many<V: HealthView>(
    zones: &Zones,
    group: Group,
    view: &V,
    first: &Region,
    latencies: Option<&Latencies>,
    at: usize,
) -> Option<usize>
    requires group { IsGroupNow zones.now.zones group }
    requires at { PoliciesAreAt (sets_in zones.now.zones group) at }
    requires few { group.length ≤ 100 }
    ensures { IfSome result (λ place. place
        ≡ region_chosen (each region_of first.now (sets_in zones.now.zones group))
        (flags_in zones.now.zones (V.test view.now) group) (option_copied latencies.entry)) }
{
    soonest_in(
        zones,
        group,
        view,
        first,
        latencies,
        at,
        &mut [0; GROUP],
        &mut [false; GROUP],
    )
}

/// Chooses from a latency group by the latencies of the client, and by the names of regions where some
/// are as slow as others.
// Apart, since mostly one region is less slow than all others.
#[inline(never)]
fn first_by_name<V: HealthView>(
    zones: &Zones,
    group: Group,
    view: &V,
    first: &Region,
    latencies: Option<&Latencies>,
    at: usize,
) -> usize
    requires group { IsGroupNow zones.now.zones group }
    requires at { PoliciesAreAt (sets_in zones.now.zones group) at }
    requires first { FirstSays region_of first.now (sets_in zones.now.zones group) }
    requires some { 0 < group.length }
    requires few { group.length ≤ 100 }
    ensures { result
        ≡ region_chosen (each region_of first.now (sets_in zones.now.zones group))
        (flags_in zones.now.zones (V.test view.now) group) (option_copied latencies.entry) }
{
    if group.length <= FEW {
        return nearest_of_few(zones, group, view, first, latencies, at);
    }
    nearest_of_many(zones, group, view, first, latencies, at)
}

/// Chooses from a latency group of few sets by the latencies of the client.
fn nearest_of_few<V: HealthView>(
    zones: &Zones,
    group: Group,
    view: &V,
    first: &Region,
    latencies: Option<&Latencies>,
    at: usize,
) -> usize
    requires group { IsGroupNow zones.now.zones group }
    requires at { PoliciesAreAt (sets_in zones.now.zones group) at }
    requires first { FirstSays region_of first.now (sets_in zones.now.zones group) }
    requires some { 0 < group.length }
    requires few { group.length ≤ 24 }
    ensures { result
        ≡ region_chosen (each region_of first.now (sets_in zones.now.zones group))
        (flags_in zones.now.zones (V.test view.now) group) (option_copied latencies.entry) }
{
    let slots = zones.slots_of(group);
    let mut regions = [*first; FEW];
    nearest_region(
        zones,
        group,
        slots,
        view,
        first,
        latencies,
        at,
        &mut regions,
    )
}

/// The same from a group of many sets.
// Apart, so that others pass by the room for so many regions.
#[inline(never)]
fn nearest_of_many<V: HealthView>(
    zones: &Zones,
    group: Group,
    view: &V,
    first: &Region,
    latencies: Option<&Latencies>,
    at: usize,
) -> usize
    requires group { IsGroupNow zones.now.zones group }
    requires at { PoliciesAreAt (sets_in zones.now.zones group) at }
    requires first { FirstSays region_of first.now (sets_in zones.now.zones group) }
    requires some { 0 < group.length }
    requires few { group.length ≤ 100 }
    ensures { result
        ≡ region_chosen (each region_of first.now (sets_in zones.now.zones group))
        (flags_in zones.now.zones (V.test view.now) group) (option_copied latencies.entry) }
{
    let slots = zones.slots_of(group);
    let mut regions = [*first; GROUP];
    nearest_region(
        zones,
        group,
        slots,
        view,
        first,
        latencies,
        at,
        &mut regions,
    )
}

/// Chooses from a latency group by the latencies of the client, in room for the regions.
fn nearest_region<V: HealthView>(
    zones: &Zones,
    group: Group,
    slots: &[u32],
    view: &V,
    first: &Region,
    latencies: Option<&Latencies>,
    at: usize,
    regions: &mut [Region],
) -> usize
    requires group { IsGroupNow zones.now.zones group }
    requires slots { AreMembers zones.now.zones group slots.now at }
    requires first { FirstSays region_of first.now (sets_in zones.now.zones group) }
    requires some { 0 < group.length }
    requires few { group.length ≤ 100 }
    requires room { group.length ≤ length regions.old }
    ensures { result
        ≡ region_chosen (each region_of first.now (sets_in zones.now.zones group))
        (flags_in zones.now.zones (V.test view.now) group) (option_copied latencies.entry) }
{
    let mut healthy = [false; GROUP];
    note_healthy(zones, group, slots, view, &mut healthy);
    note_regions(zones, group, slots, at, first, regions);
    answer_model::choose_region(
        &regions[..group.length],
        &healthy[..group.length],
        latencies,
    )
}

/// Chooses from a multivalue answer group.
pub(crate) fn choose_several<V: HealthView>(
    zones: &Zones,
    group: Group,
    view: &V,
    word: u64,
) -> Picked
    requires group { IsGroupNow zones.now.zones group }
    requires some { 0 < group.length }
    requires few { group.length ≤ 100 }
    ensures { result
        ≡ picked (several_chosen (flags_in zones.now.zones (V.test view.now) group) word) }
{
    let mut healthy = [false; GROUP];
    let slots = zones.slots_of(group);
    note_healthy(zones, group, slots, view, &mut healthy);
    multivalue::choose(&healthy[..group.length], word)
}

/// Chooses from a group of IP-based routing, by the location of the client in its collection.
pub(crate) fn choose_block<V: HealthView>(
    zones: &Zones,
    group: Group,
    view: &V,
    first: &Ident,
    client: Option<&Ident>,
    scratch: &mut Scratch,
) -> Option<usize>
    requires group { IsGroupNow zones.now.zones group }
    requires few { group.length ≤ 100 }
    ensures { result
        ≡ block_chosen (each location_of first.now (sets_in zones.now.zones group))
        (flags_in zones.now.zones (V.test view.now) group) (option_copied client.entry) }
{
    let mut healthy = [false; GROUP];
    let slots = zones.slots_of(group);
    note_healthy(zones, group, slots, view, &mut healthy);
    let mut locations = [*first; GROUP];
    note_locations(zones, group, first, scratch, &mut locations);
    zone_table::choose_block(&locations[..group.length], &healthy[..group.length], client)
}
