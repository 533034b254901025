//! Which sets have valves of their own: evaluated aliases, and the sets of their target groups that
//! something decides. Of another set a check alone decides, or nothing: its seat tells the valve of that check.

ghost use Rattle.std.specs.Prelude.{◌≡◌, ◌<◌, ℕ, List, true, false, Some, length, slice_get};
ghost use Rattle.health_valves.specs.Blueprint.{KeepsRoom};
ghost use Rattle.health_valves.specs.declared.blueprint.Trigger.{Trigger};
ghost use Rattle.health_planning.specs.Building.{AllListed, AreAsked, HaveOwnValves, IsListed, TargetListed};
ghost use Rattle.health_planning.specs.Building.{TargetsListed, set_trigger};
ghost use Rattle.health_planning.specs.declared.seats.Seat.{Seat};
ghost use Rattle.record_set.specs.declared.sets.Body.TheVariants.{Alias};
ghost use Rattle.policy_select.specs.Groups.{members_of};
ghost use Rattle.health_planning.specs.Rooms.{HasListRoom};
ghost use Rattle.health_planning.specs.Wired.{is_watched, only_check};
ghost use Rattle.record_set.specs.declared.sets.RecordSet.{RecordSet};
ghost use Rattle.policy_select.specs.Telling.{evaluates, watch_of};
ghost use Rattle.policy_select.specs.Changes.{ref_in};
ghost use Rattle.policy_select.specs.Zones.{placed_in};
ghost use Rattle.policy_select.specs.SetRefRecord.{SetRef};
ghost use Rattle.zone_model.specs.Slotted.{IsHere, Slotted};
ghost use Rattle.policy_select.specs.Looking.{IsGroupNow, RefersTo};

use crate::seats::{Seat, own_valve};
use health_valves::{Blueprint, Trigger};
use policy_select::{Group, SetRef, Watch, Zones, find_group};

/// Whether something decides the health of a set.
pub fn is_watched(watch: Watch) -> bool
    ensures { (set : RecordSet) → watch ≡ watch_of set → result ≡ is_watched set }
{
    watch.check.is_some() || watch.evaluates
}

/// The number of the check that alone decides a set, and 0 where there is none such.
pub fn only_check(watch: Watch) -> u32
    ensures { (set : RecordSet) → watch ≡ watch_of set → result ≡ only_check set }
{
    if watch.evaluates {
        return 0;
    }
    match watch.check {
        Some(id) => id,
        None => 0,
    }
}

/// What opens the valve of a set.
fn trigger_of(watch: Watch) -> Trigger
    ensures { (set : RecordSet) → watch ≡ watch_of set → result ≡ set_trigger set }
{
    Trigger {
        need: u32::from(watch.check.is_some()) + u32::from(watch.evaluates),
        inverted: false,
        own: 0,
    }
}

/// Gives a set a valve, where something decides it and it has none. One that has is not read, since many
/// aliases may lead to it.
fn list_one(
    zones: &Zones,
    set: SetRef,
    refs: &mut Vec<SetRef>,
    seats: &mut Vec<Seat>,
    blueprint: &mut Blueprint,
)
    requires slot { set.slot < length seats.old.items }
    requires room { HasListRoom blueprint.old refs.old seats.old.items }
    requires listed { (first : ℕ) × ((before : List Seat) × HaveOwnValves zones.now.zones first before
        refs.old.items seats.old.items blueprint.old.triggers) }
    ensures listed { (first : ℕ) (before : List Seat)
        → HaveOwnValves zones.now.zones first before refs.old.items seats.old.items
        blueprint.old.triggers
        → HaveOwnValves zones.now.zones first before refs.new.items seats.new.items
        blueprint.new.triggers }
    ensures goes_on { (k : ℕ) (ref : SetRef) → slice_get refs.old.items k ≡ Some ref
        → slice_get refs.new.items k ≡ Some ref }
    ensures here { (named : RecordSet) → RefersTo zones.now.zones set named
        → is_watched named ≡ true → IsListed refs.new.items set }
    ensures triggers { (n : ℕ) (trigger : Trigger) → slice_get blueprint.old.triggers n ≡ Some trigger
        → slice_get blueprint.new.triggers n ≡ Some trigger }
    ensures links { blueprint.new.links ≡ blueprint.old.links }
    ensures size { length seats.new.items ≡ length seats.old.items }
    ensures room { HasListRoom blueprint.new refs.new seats.new.items }
    ensures kept { KeepsRoom blueprint.old blueprint.new }
{
    zones.well_formed();
    zones.slots_apart();
    let slot = set.slot as usize;
    let own = own_valve(seats[slot].set);
    if own != 0 {
        return;
    }
    let Some(watch) = zones.watch(set) else {
        return;
    };
    if !is_watched(watch) {
        return;
    }
    let valve = blueprint.len() as u32;
    blueprint.push(trigger_of(watch));
    refs.push_reserved(set);
    seats[slot] = Seat {
        set: valve + 1,
        group: 0,
        check: only_check(watch),
    };
}

/// Gives an evaluated alias a valve, where it has none.
fn list_alias(
    zones: &Zones,
    set: SetRef,
    refs: &mut Vec<SetRef>,
    seats: &mut Vec<Seat>,
    blueprint: &mut Blueprint,
)
    requires slot { set.slot < length seats.old.items }
    requires room { HasListRoom blueprint.old refs.old seats.old.items }
    requires listed { (first : ℕ) × ((before : List Seat) × HaveOwnValves zones.now.zones first before
        refs.old.items seats.old.items blueprint.old.triggers) }
    ensures listed { (first : ℕ) (before : List Seat)
        → HaveOwnValves zones.now.zones first before refs.old.items seats.old.items
        blueprint.old.triggers
        → HaveOwnValves zones.now.zones first before refs.new.items seats.new.items
        blueprint.new.triggers }
    ensures here { (named : RecordSet) → RefersTo zones.now.zones set named
        → evaluates named.body ≡ true → IsListed refs.new.items set }
    ensures goes_on { (k : ℕ) (ref : SetRef) → slice_get refs.old.items k ≡ Some ref
        → slice_get refs.new.items k ≡ Some ref }
    ensures triggers { (n : ℕ) (trigger : Trigger) → slice_get blueprint.old.triggers n ≡ Some trigger
        → slice_get blueprint.new.triggers n ≡ Some trigger }
    ensures links { blueprint.new.links ≡ blueprint.old.links }
    ensures size { length seats.new.items ≡ length seats.old.items }
    ensures room { HasListRoom blueprint.new refs.new seats.new.items }
    ensures kept { KeepsRoom blueprint.old blueprint.new }
{
    zones.well_formed();
    let Some(watch) = zones.watch(set) else {
        return;
    };
    if !watch.evaluates {
        return;
    }
    list_one(zones, set, refs, seats, blueprint);
}

/// Gives the evaluated aliases of a zone valves. There is none where none of its sets is an alias.
fn list_zone(
    zones: &Zones,
    zone: u32,
    refs: &mut Vec<SetRef>,
    seats: &mut Vec<Seat>,
    blueprint: &mut Blueprint,
)
    requires slots { length seats.old.items ≡ zones.now.slots }
    requires room { HasListRoom blueprint.old refs.old seats.old.items }
    requires listed { (first : ℕ) × ((before : List Seat) × HaveOwnValves zones.now.zones first before
        refs.old.items seats.old.items blueprint.old.triggers) }
    ensures listed { (first : ℕ) (before : List Seat)
        → HaveOwnValves zones.now.zones first before refs.old.items seats.old.items
        blueprint.old.triggers
        → HaveOwnValves zones.now.zones first before refs.new.items seats.new.items
        blueprint.new.triggers }
    ensures all { (p : Slotted) → IsHere (placed_in zones.now.zones zone) p
        → evaluates p.set.body ≡ true → IsListed refs.new.items (ref_in zone p) }
    ensures goes_on { (k : ℕ) (ref : SetRef) → slice_get refs.old.items k ≡ Some ref
        → slice_get refs.new.items k ≡ Some ref }
    ensures triggers { (n : ℕ) (trigger : Trigger) → slice_get blueprint.old.triggers n ≡ Some trigger
        → slice_get blueprint.new.triggers n ≡ Some trigger }
    ensures links { blueprint.new.links ≡ blueprint.old.links }
    ensures size { length seats.new.items ≡ length seats.old.items }
    ensures room { HasListRoom blueprint.new refs.new seats.new.items }
    ensures kept { KeepsRoom blueprint.old blueprint.new }
{
    if has_aliases(zones, zone) {
        list_each(zones, zone, refs, seats, blueprint);
    }
}

/// Whether a zone may have an evaluated alias, by what is counted of its sets.
fn has_aliases(zones: &Zones, zone: u32) -> bool
    ensures { result ≡ false → (p : Slotted) → IsHere (placed_in zones.now.zones zone) p
        → evaluates p.set.body ≡ false }
{
    let aliases = zones.aliases(zone);
    if aliases > 0 {
        return true;
    }
    false
}

/// Gives the evaluated aliases of a zone valves: each of its sets is asked.
fn list_each(
    zones: &Zones,
    zone: u32,
    refs: &mut Vec<SetRef>,
    seats: &mut Vec<Seat>,
    blueprint: &mut Blueprint,
)
    requires slots { length seats.old.items ≡ zones.now.slots }
    requires room { HasListRoom blueprint.old refs.old seats.old.items }
    requires listed { (first : ℕ) × ((before : List Seat) × HaveOwnValves zones.now.zones first before
        refs.old.items seats.old.items blueprint.old.triggers) }
    ensures listed { (first : ℕ) (before : List Seat)
        → HaveOwnValves zones.now.zones first before refs.old.items seats.old.items
        blueprint.old.triggers
        → HaveOwnValves zones.now.zones first before refs.new.items seats.new.items
        blueprint.new.triggers }
    ensures all { (p : Slotted) → IsHere (placed_in zones.now.zones zone) p
        → evaluates p.set.body ≡ true → IsListed refs.new.items (ref_in zone p) }
    ensures goes_on { (k : ℕ) (ref : SetRef) → slice_get refs.old.items k ≡ Some ref
        → slice_get refs.new.items k ≡ Some ref }
    ensures triggers { (n : ℕ) (trigger : Trigger) → slice_get blueprint.old.triggers n ≡ Some trigger
        → slice_get blueprint.new.triggers n ≡ Some trigger }
    ensures links { blueprint.new.links ≡ blueprint.old.links }
    ensures size { length seats.new.items ≡ length seats.old.items }
    ensures room { HasListRoom blueprint.new refs.new seats.new.items }
    ensures kept { KeepsRoom blueprint.old blueprint.new }
{
    zones.slots_within();
    for i in 0..zones.count(zone) {
        let Some(set) = zones.at(zone, i) else {
            unreachable!();
        };
        list_alias(zones, set, refs, seats, blueprint);
    }
}

/// Gives the evaluated aliases of all zones valves.
fn list_sets(
    zones: &Zones,
    refs: &mut Vec<SetRef>,
    seats: &mut Vec<Seat>,
    blueprint: &mut Blueprint,
)
    requires slots { length seats.old.items ≡ zones.now.slots }
    requires room { HasListRoom blueprint.old refs.old seats.old.items }
    requires listed { (first : ℕ) × ((before : List Seat) × HaveOwnValves zones.now.zones first before
        refs.old.items seats.old.items blueprint.old.triggers) }
    ensures listed { (first : ℕ) (before : List Seat)
        → HaveOwnValves zones.now.zones first before refs.old.items seats.old.items
        blueprint.old.triggers
        → HaveOwnValves zones.now.zones first before refs.new.items seats.new.items
        blueprint.new.triggers }
    ensures all { (zone : ℕ) (p : Slotted) → IsHere (placed_in zones.now.zones zone) p
        → evaluates p.set.body ≡ true → IsListed refs.new.items (ref_in zone p) }
    ensures goes_on { (k : ℕ) (ref : SetRef) → slice_get refs.old.items k ≡ Some ref
        → slice_get refs.new.items k ≡ Some ref }
    ensures triggers { (n : ℕ) (trigger : Trigger) → slice_get blueprint.old.triggers n ≡ Some trigger
        → slice_get blueprint.new.triggers n ≡ Some trigger }
    ensures links { blueprint.new.links ≡ blueprint.old.links }
    ensures size { length seats.new.items ≡ length seats.old.items }
    ensures room { HasListRoom blueprint.new refs.new seats.new.items }
    ensures kept { KeepsRoom blueprint.old blueprint.new }
{
    zones.well_formed();
    let mut zone = 0;
    while let Some(next) = zones.zone_after(zone) {
        list_zone(zones, next, refs, seats, blueprint);
        zone = next;
    }
}

/// Gives a set a valve, where it is there and an evaluated alias, and has none.
fn list_known(
    zones: &Zones,
    set: SetRef,
    refs: &mut Vec<SetRef>,
    seats: &mut Vec<Seat>,
    blueprint: &mut Blueprint,
)
    requires slots { length seats.old.items ≡ zones.now.slots }
    requires room { HasListRoom blueprint.old refs.old seats.old.items }
    requires listed { (first : ℕ) × ((before : List Seat) × HaveOwnValves zones.now.zones first before
        refs.old.items seats.old.items blueprint.old.triggers) }
    ensures listed { (first : ℕ) (before : List Seat)
        → HaveOwnValves zones.now.zones first before refs.old.items seats.old.items
        blueprint.old.triggers
        → HaveOwnValves zones.now.zones first before refs.new.items seats.new.items
        blueprint.new.triggers }
    ensures here { (named : RecordSet) → RefersTo zones.now.zones set named
        → evaluates named.body ≡ true → IsListed refs.new.items set }
    ensures goes_on { (k : ℕ) (ref : SetRef) → slice_get refs.old.items k ≡ Some ref
        → slice_get refs.new.items k ≡ Some ref }
    ensures triggers { (n : ℕ) (trigger : Trigger) → slice_get blueprint.old.triggers n ≡ Some trigger
        → slice_get blueprint.new.triggers n ≡ Some trigger }
    ensures links { blueprint.new.links ≡ blueprint.old.links }
    ensures size { length seats.new.items ≡ length seats.old.items }
    ensures room { HasListRoom blueprint.new refs.new seats.new.items }
    ensures kept { KeepsRoom blueprint.old blueprint.new }
{
    zones.slots_within();
    if set.slot as usize >= seats.len() {
        return;
    }
    list_alias(zones, set, refs, seats, blueprint);
}

/// Gives the evaluated aliases among some sets valves.
fn list_those(
    zones: &Zones,
    those: &[SetRef],
    refs: &mut Vec<SetRef>,
    seats: &mut Vec<Seat>,
    blueprint: &mut Blueprint,
)
    requires slots { length seats.old.items ≡ zones.now.slots }
    requires room { HasListRoom blueprint.old refs.old seats.old.items }
    requires listed { (first : ℕ) × ((before : List Seat) × HaveOwnValves zones.now.zones first before
        refs.old.items seats.old.items blueprint.old.triggers) }
    ensures listed { (first : ℕ) (before : List Seat)
        → HaveOwnValves zones.now.zones first before refs.old.items seats.old.items
        blueprint.old.triggers
        → HaveOwnValves zones.now.zones first before refs.new.items seats.new.items
        blueprint.new.triggers }
    ensures all { (k : ℕ) (set : SetRef) (named : RecordSet) → slice_get those.now k ≡ Some set
        → RefersTo zones.now.zones set named → evaluates named.body ≡ true
        → IsListed refs.new.items set }
    ensures goes_on { (k : ℕ) (ref : SetRef) → slice_get refs.old.items k ≡ Some ref
        → slice_get refs.new.items k ≡ Some ref }
    ensures triggers { (n : ℕ) (trigger : Trigger) → slice_get blueprint.old.triggers n ≡ Some trigger
        → slice_get blueprint.new.triggers n ≡ Some trigger }
    ensures links { blueprint.new.links ≡ blueprint.old.links }
    ensures size { length seats.new.items ≡ length seats.old.items }
    ensures room { HasListRoom blueprint.new refs.new seats.new.items }
    ensures kept { KeepsRoom blueprint.old blueprint.new }
{
    for set in those {
        list_known(zones, *set, refs, seats, blueprint);
    }
}

/// Gives evaluated aliases valves: those of all zones, or else the ones among the sets that are known and
/// those that came.
pub fn list_asked(
    zones: &Zones,
    whole: bool,
    known: &[SetRef],
    came: &[SetRef],
    refs: &mut Vec<SetRef>,
    seats: &mut Vec<Seat>,
    blueprint: &mut Blueprint,
)
    requires slots { length seats.old.items ≡ zones.now.slots }
    requires room { HasListRoom blueprint.old refs.old seats.old.items }
    requires listed { (first : ℕ) × ((before : List Seat) × HaveOwnValves zones.now.zones first before
        refs.old.items seats.old.items blueprint.old.triggers) }
    ensures listed { (first : ℕ) (before : List Seat)
        → HaveOwnValves zones.now.zones first before refs.old.items seats.old.items
        blueprint.old.triggers
        → HaveOwnValves zones.now.zones first before refs.new.items seats.new.items
        blueprint.new.triggers }
    ensures all { AreAsked zones.now.zones whole known.now came.now
        → AllListed zones.now.zones refs.new.items }
    ensures goes_on { (k : ℕ) (ref : SetRef) → slice_get refs.old.items k ≡ Some ref
        → slice_get refs.new.items k ≡ Some ref }
    ensures triggers { (n : ℕ) (trigger : Trigger) → slice_get blueprint.old.triggers n ≡ Some trigger
        → slice_get blueprint.new.triggers n ≡ Some trigger }
    ensures links { blueprint.new.links ≡ blueprint.old.links }
    ensures size { length seats.new.items ≡ length seats.old.items }
    ensures room { HasListRoom blueprint.new refs.new seats.new.items }
    ensures kept { KeepsRoom blueprint.old blueprint.new }
{
    if whole {
        list_sets(zones, refs, seats, blueprint);
        return;
    }
    list_those(zones, known, refs, seats, blueprint);
    list_those(zones, came, refs, seats, blueprint);
}

/// Gives the sets of a group valves, where something decides them and they have none.
fn list_members(
    zones: &Zones,
    group: Group,
    refs: &mut Vec<SetRef>,
    seats: &mut Vec<Seat>,
    blueprint: &mut Blueprint,
)
    requires group { IsGroupNow zones.now.zones group }
    requires slots { length seats.old.items ≡ zones.now.slots }
    requires room { HasListRoom blueprint.old refs.old seats.old.items }
    requires listed { (first : ℕ) × ((before : List Seat) × HaveOwnValves zones.now.zones first before
        refs.old.items seats.old.items blueprint.old.triggers) }
    ensures listed { (first : ℕ) (before : List Seat)
        → HaveOwnValves zones.now.zones first before refs.old.items seats.old.items
        blueprint.old.triggers
        → HaveOwnValves zones.now.zones first before refs.new.items seats.new.items
        blueprint.new.triggers }
    ensures all { (p : Slotted) → IsHere (members_of zones.now.zones group) p
        → is_watched p.set ≡ true → IsListed refs.new.items (ref_in group.zone p) }
    ensures goes_on { (k : ℕ) (ref : SetRef) → slice_get refs.old.items k ≡ Some ref
        → slice_get refs.new.items k ≡ Some ref }
    ensures triggers { (n : ℕ) (trigger : Trigger) → slice_get blueprint.old.triggers n ≡ Some trigger
        → slice_get blueprint.new.triggers n ≡ Some trigger }
    ensures links { blueprint.new.links ≡ blueprint.old.links }
    ensures size { length seats.new.items ≡ length seats.old.items }
    ensures room { HasListRoom blueprint.new refs.new seats.new.items }
    ensures kept { KeepsRoom blueprint.old blueprint.new }
{
    zones.slots_within();
    for i in 0..group.length {
        list_one(zones, zones.member(group, i), refs, seats, blueprint);
    }
}

/// Gives the sets of the target group of an evaluated alias valves, where something decides them and
/// they have none.
fn list_target(
    zones: &Zones,
    set: SetRef,
    refs: &mut Vec<SetRef>,
    seats: &mut Vec<Seat>,
    blueprint: &mut Blueprint,
)
    requires slots { length seats.old.items ≡ zones.now.slots }
    requires room { HasListRoom blueprint.old refs.old seats.old.items }
    requires listed { (first : ℕ) × ((before : List Seat) × HaveOwnValves zones.now.zones first before
        refs.old.items seats.old.items blueprint.old.triggers) }
    ensures listed { (first : ℕ) (before : List Seat)
        → HaveOwnValves zones.now.zones first before refs.old.items seats.old.items
        blueprint.old.triggers
        → HaveOwnValves zones.now.zones first before refs.new.items seats.new.items
        blueprint.new.triggers }
    ensures members { (named : RecordSet) (name : List (List ℕ)) → RefersTo zones.now.zones set named
        → named.body ≡ Alias name true
        → TargetListed zones.now.zones set.zone name named.rtype refs.new.items }
    ensures goes_on { (k : ℕ) (ref : SetRef) → slice_get refs.old.items k ≡ Some ref
        → slice_get refs.new.items k ≡ Some ref }
    ensures triggers { (n : ℕ) (trigger : Trigger) → slice_get blueprint.old.triggers n ≡ Some trigger
        → slice_get blueprint.new.triggers n ≡ Some trigger }
    ensures links { blueprint.new.links ≡ blueprint.old.links }
    ensures size { length seats.new.items ≡ length seats.old.items }
    ensures room { HasListRoom blueprint.new refs.new seats.new.items }
    ensures kept { KeepsRoom blueprint.old blueprint.new }
{
    zones.well_formed();
    let Some(watch) = zones.watch(set) else {
        return;
    };
    if !watch.evaluates {
        return;
    }
    let Some(target) = zones.target(set) else {
        return;
    };
    let group = find_group(zones, set.zone, &target.0, target.1);
    list_members(zones, group, refs, seats, blueprint);
}

/// Gives the sets of the target groups of listed aliases valves, where something decides them. Those among
/// them that are aliases themselves are listed by it, and so are the sets of their target groups.
pub fn list_targets(
    zones: &Zones,
    refs: &mut Vec<SetRef>,
    seats: &mut Vec<Seat>,
    blueprint: &mut Blueprint,
)
    requires slots { length seats.old.items ≡ zones.now.slots }
    requires room { HasListRoom blueprint.old refs.old seats.old.items }
    requires listed { (first : ℕ) × ((before : List Seat) × HaveOwnValves zones.now.zones first before
        refs.old.items seats.old.items blueprint.old.triggers) }
    ensures listed { (first : ℕ) (before : List Seat)
        → HaveOwnValves zones.now.zones first before refs.old.items seats.old.items
        blueprint.old.triggers
        → HaveOwnValves zones.now.zones first before refs.new.items seats.new.items
        blueprint.new.triggers }
    ensures members { TargetsListed zones.now.zones (length refs.new.items) refs.new.items }
    ensures goes_on { (k : ℕ) (ref : SetRef) → slice_get refs.old.items k ≡ Some ref
        → slice_get refs.new.items k ≡ Some ref }
    ensures triggers { (n : ℕ) (trigger : Trigger) → slice_get blueprint.old.triggers n ≡ Some trigger
        → slice_get blueprint.new.triggers n ≡ Some trigger }
    ensures links { blueprint.new.links ≡ blueprint.old.links }
    ensures size { length seats.new.items ≡ length seats.old.items }
    ensures room { HasListRoom blueprint.new refs.new seats.new.items }
    ensures kept { KeepsRoom blueprint.old blueprint.new }
{
    let mut k = 0;
    while k < refs.len() {
        let set = refs[k];
        list_target(zones, set, refs, seats, blueprint);
        k += 1;
    }
}
