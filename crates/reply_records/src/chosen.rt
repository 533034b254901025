//! The records with which chosen sets answer a name.

ghost use Rattle.std.specs.Prelude.{◌≡◌, ◌<◌, ◌∷◌, [], ℕ, length, Some, slice_get};
ghost use Rattle.policy_select.specs.Records.{answer_records, joint_data, records};
ghost use Rattle.dns_wire.specs.declared.reply.Section.TheVariants.{Answer};
ghost use Rattle.policy_select.specs.Groups.{sets_in};
ghost use Rattle.policy_select.specs.Selecting.{AreOfGroup, HoldsFirst, selected_sets};
ghost use Rattle.record_set.specs.declared.sets.RecordSet.{RecordSet};
ghost use Rattle.policy_select.specs.Holding.{IsHolding};
ghost use Rattle.policy_select.specs.Looking.{IsGroupNow};
ghost use Rattle.reply_records.specs.Chosen.{ArePlaces, HoldsValued, StartsOrNone, sets_of_places};
ghost use Rattle.reply_records.specs.Writing.{TakesRecords, Writes};

use crate::held::{count_of, rtype_of, ttl_of, write_values};
use crate::joint::{least_ttl, write_joint};
use crate::seen::NONE;
use dns_name::Name;
use dns_wire::{Reply, Section, records_add_up};
use policy_select::{Group, Scratch, Selected, Zones, load_member, places_of};
use rdata_layout::{RType, types_have_their_own_number};

/// Where the first of several sets has no more values, room for few is made, which is filled sooner.
const FEW_VALUES: usize = 8;

/// Writes the records with which chosen sets answer a name. The first of the sets is held.
pub fn write_chosen(
    zones: &Zones,
    selected: &Selected,
    owner: &Name,
    reply: &mut Reply,
    scratch: &mut Scratch,
)
    requires places { AreOfGroup zones.now.zones selected.now }
    requires held { HoldsFirst zones.now.zones selected.now scratch.old }
    requires open { TakesRecords Answer reply.old }
    ensures { Writes Answer (answer_records owner.now
        (selected_sets zones.now.zones selected.now)) reply.old reply.new }
{
    records_add_up();
    let Selected::Sets(group, picked) = selected else {
        return;
    };
    let places = places_of(picked);
    if places.len() == 1 {
        write_values(reply, Section::Answer, owner, ttl_of(scratch), scratch);
        return;
    }
    write_several(zones, *group, places, owner, reply, scratch);
}

/// Writes the records with which a set that is held answers a name alone.
pub fn write_first(owner: &Name, reply: &mut Reply, scratch: &Scratch)
    requires held { IsHolding scratch.now }
    requires open { TakesRecords Answer reply.old }
    ensures { (set : RecordSet) → scratch.now ≡ Some set
        → Writes Answer (answer_records owner.now (set ∷ [])) reply.old reply.new }
{
    write_values(reply, Section::Answer, owner, ttl_of(scratch), scratch);
}

/// Writes the records of the sets at some places of a group.
// Apart from the way that most answers take: its room for values makes a large frame.
#[inline(never)]
fn write_several(
    zones: &Zones,
    group: Group,
    places: &[usize],
    owner: &Name,
    reply: &mut Reply,
    scratch: &mut Scratch,
)
    requires group { IsGroupNow zones.now.zones group }
    requires places { ArePlaces group places.now }
    requires some { 0 < length places.now }
    requires open { TakesRecords Answer reply.old }
    ensures { Writes Answer (answer_records owner.now
        (sets_of_places zones.now.zones group places.now)) reply.old reply.new }
{
    types_have_their_own_number();
    let ttl = least_ttl(zones, group, places, scratch);
    load_member(zones, group, places[0], scratch);
    let rtype = rtype_of(scratch);
    if count_of(scratch) <= FEW_VALUES {
        let mut values = [NONE; 64];
        write_joint(
            zones,
            group,
            places,
            rtype,
            owner,
            ttl,
            &mut values,
            reply,
            scratch,
        );
        return;
    }
    write_many(zones, group, places, rtype, owner, ttl, reply, scratch);
}

/// Writes the records of the sets at some places of a group, which have this type, with room for
/// many values.
// Apart, so that others pass by the room for so many values.
#[inline(never)]
fn write_many(
    zones: &Zones,
    group: Group,
    places: &[usize],
    rtype: RType,
    owner: &Name,
    ttl: u32,
    reply: &mut Reply,
    scratch: &mut Scratch,
)
    requires group { IsGroupNow zones.now.zones group }
    requires places { ArePlaces group places.now }
    requires rtype { (i : ℕ) (set : RecordSet)
        → slice_get (sets_in zones.now.zones group) i ≡ Some set → set.rtype ≡ rtype }
    requires open { TakesRecords Answer reply.old }
    ensures { Writes Answer (records owner.now rtype ttl
        (joint_data [] (sets_of_places zones.now.zones group places.now))) reply.old reply.new }
{
    let mut values = [NONE; 256];
    write_joint(
        zones,
        group,
        places,
        rtype,
        owner,
        ttl,
        &mut values,
        reply,
        scratch,
    );
}

/// The TTL of the first record with which chosen sets answer, or none where they have no record.
/// Then the set of that record is held, and its data are the first value's.
pub fn first_record(zones: &Zones, selected: &Selected, scratch: &mut Scratch) -> Option<u32>
    requires places { AreOfGroup zones.now.zones selected.now }
    requires held { HoldsFirst zones.now.zones selected.now scratch.old }
    ensures { StartsOrNone (selected_sets zones.now.zones selected.now) scratch.new result }
{
    let Selected::Sets(group, picked) = selected else {
        return None;
    };
    let places = places_of(picked);
    if places.len() == 1 {
        return first_of_one(scratch);
    }
    first_of_several(zones, *group, places, scratch)
}

/// The same of the one set that is held.
fn first_of_one(scratch: &Scratch) -> Option<u32>
    requires { IsHolding scratch.now }
    ensures { (set : RecordSet) → scratch.now ≡ Some set
        → StartsOrNone (set ∷ []) scratch.now result }
{
    if count_of(scratch) == 0 {
        return None;
    }
    Some(ttl_of(scratch))
}

/// The same of the sets at some places of a group.
fn first_of_several(
    zones: &Zones,
    group: Group,
    places: &[usize],
    scratch: &mut Scratch,
) -> Option<u32>
    requires group { IsGroupNow zones.now.zones group }
    requires places { ArePlaces group places.now }
    requires some { 0 < length places.now }
    ensures { StartsOrNone (sets_of_places zones.now.zones group places.now) scratch.new result }
{
    types_have_their_own_number();
    let ttl = least_ttl(zones, group, places, scratch);
    if hold_valued(zones, group, places, scratch) {
        return Some(ttl);
    }
    None
}

/// Holds the first set at some places that has a value, and tells whether there is one.
fn hold_valued(zones: &Zones, group: Group, places: &[usize], scratch: &mut Scratch) -> bool
    requires group { IsGroupNow zones.now.zones group }
    requires places { ArePlaces group places.now }
    ensures { HoldsValued (sets_of_places zones.now.zones group places.now) scratch.new result }
{
    for place in places {
        load_member(zones, group, *place, scratch);
        if count_of(scratch) > 0 {
            return true;
        }
    }
    false
}
