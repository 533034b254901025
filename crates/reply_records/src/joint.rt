//! Records of several sets of a group: the least TTL, and each value of an earlier set left out.

ghost use Rattle.std.specs.Prelude.{◌≡◌, ◌<◌, ◌≤◌, ◌∷◌, ◌++◌, [], ℕ, IsTrue, List, length};
ghost use Rattle.std.specs.Prelude.{Some, false, slice_get, take, true};
ghost use Rattle.std.specs.Str.{bytes_eq};
ghost use Rattle.policy_select.specs.Records.{data_of, is_among, joint_data, least_ttl, records};
ghost use Rattle.dns_wire.specs.declared.reply.Section.TheVariants.{Answer};
ghost use Rattle.policy_select.specs.Groups.{sets_in};
ghost use Rattle.rdata_layout.specs.Layout.{IsLayout};
ghost use Rattle.record_set.specs.declared.sets.RecordSet.{RecordSet};
ghost use Rattle.policy_select.specs.Holding.{HasValue, IsHolding};
ghost use Rattle.policy_select.specs.Looking.{IsGroupNow};
ghost use Rattle.reply_records.specs.Chosen.{ArePlaces, all_data, new_data, sets_of_places};
ghost use Rattle.reply_records.specs.Seeing.{Sees};
ghost use Rattle.reply_records.specs.Writing.{TakesRecords, Writes};

use crate::held::{count_of, rdata_at, ttl_of, write_or_cut, write_until_cut};
use crate::seen::{Seen, Short, is_seen, note_held};
use dns_name::Name;
use dns_wire::{Reply, Section, records_add_up};
use octets::{fill_front, front};
use policy_select::{Group, Scratch, Zones, load_member};
use rdata_layout::RType;

/// The most octets of a value (own).
const MOST_OCTETS: usize = 4000;

/// Values of no more octets are copied to a small room, which is filled sooner.
const FEW_OCTETS: usize = 64;

/// The least TTL of the sets at some places of a group.
pub(crate) fn least_ttl(zones: &Zones, group: Group, places: &[usize], scratch: &mut Scratch) -> u32
    requires group { IsGroupNow zones.now.zones group }
    requires places { ArePlaces group places.now }
    requires some { 0 < length places.now }
    ensures { (set : RecordSet) (others : List RecordSet)
        → sets_of_places zones.now.zones group places.now ≡ set ∷ others
        → result ≡ least_ttl set others }
{
    load_member(zones, group, places[0], scratch);
    let mut least = ttl_of(scratch);
    for place in places {
        load_member(zones, group, *place, scratch);
        least = least.min(ttl_of(scratch));
    }
    least
}

/// Writes the records of the sets at some places of a group, which have this type. Values are kept
/// in some room as far as it goes.
pub(crate) fn write_joint(
    zones: &Zones,
    group: Group,
    places: &[usize],
    rtype: RType,
    owner: &Name,
    ttl: u32,
    values: &mut [Short],
    reply: &mut Reply,
    scratch: &mut Scratch,
)
    requires group { IsGroupNow zones.now.zones group }
    requires places { ArePlaces group places.now }
    requires rtype { (i : ℕ) (set : RecordSet)
        → slice_get (sets_in zones.now.zones group) i ≡ Some set → set.rtype ≡ rtype }
    requires open { TakesRecords Answer reply.old }
    ensures { Writes Answer (records owner.now rtype ttl
        (joint_data [] (sets_of_places zones.now.zones group places.now))) reply.old reply.new }
{
    records_add_up();
    let mut seen = Seen {
        count: 0,
        is_whole: true,
    };
    for i in 0..places.len() {
        let earlier = places_before(places, i);
        if write_new(
            zones, group, earlier, places[i], rtype, owner, ttl, values, &mut seen, reply, scratch,
        ) {
            return;
        }
    }
}

/// The first places.
fn places_before(places: &[usize], i: usize) -> &[usize]
    requires { i ≤ length places.now }
    ensures { result.now ≡ take i places.now }
{
    &places[..i]
}

/// Writes the values of the set at a place that no earlier set has, and tells whether the reply is
/// known to be cut. Where it isn't they are seen then.
fn write_new(
    zones: &Zones,
    group: Group,
    earlier: &[usize],
    place: usize,
    rtype: RType,
    owner: &Name,
    ttl: u32,
    values: &mut [Short],
    seen: &mut Seen,
    reply: &mut Reply,
    scratch: &mut Scratch,
) -> bool
    requires group { IsGroupNow zones.now.zones group }
    requires earlier { ArePlaces group earlier.now }
    requires place { place < group.length }
    requires rtype { (i : ℕ) (set : RecordSet)
        → slice_get (sets_in zones.now.zones group) i ≡ Some set → set.rtype ≡ rtype }
    requires sees { Sees (all_data (sets_of_places zones.now.zones group earlier.now)) values.old
        seen.old }
    requires within { seen.old.count ≤ length values.old }
    requires open { TakesRecords Answer reply.old }
    ensures there { (set : RecordSet) × (slice_get (sets_in zones.now.zones group) place ≡ Some set) }
    ensures written { (set : RecordSet)
        → slice_get (sets_in zones.now.zones group) place ≡ Some set
        → Writes Answer (records owner.now rtype ttl
        (new_data (sets_of_places zones.now.zones group earlier.now) (data_of set.body)))
        reply.old reply.new }
    ensures truncated { IsTrue result → reply.new.is_truncated ≡ true }
    ensures sees { (set : RecordSet)
        → slice_get (sets_in zones.now.zones group) place ≡ Some set → result ≡ false
        → Sees (all_data (sets_of_places zones.now.zones group earlier.now) ++ data_of set.body)
        values.new seen.new }
    ensures within { seen.new.count ≤ length values.new }
{
    load_member(zones, group, place, scratch);
    if write_held(
        zones, group, earlier, place, rtype, owner, ttl, values, seen, reply, scratch,
    ) {
        return true;
    }
    note_held(values, seen, scratch);
    false
}

/// Writes those of the set at the place, which is held. Of the first set all are new.
fn write_held(
    zones: &Zones,
    group: Group,
    earlier: &[usize],
    place: usize,
    rtype: RType,
    owner: &Name,
    ttl: u32,
    values: &[Short],
    seen: &Seen,
    reply: &mut Reply,
    scratch: &mut Scratch,
) -> bool
    requires group { IsGroupNow zones.now.zones group }
    requires earlier { ArePlaces group earlier.now }
    requires place { place < group.length }
    requires holding { IsHolding scratch.old }
    requires held { scratch.old ≡ slice_get (sets_in zones.now.zones group) place }
    requires rtype { (set : RecordSet) → scratch.old ≡ Some set → set.rtype ≡ rtype }
    requires sees { Sees (all_data (sets_of_places zones.now.zones group earlier.now)) values.now
        seen.now }
    requires within { seen.now.count ≤ length values.now }
    requires open { TakesRecords Answer reply.old }
    ensures held { scratch.new ≡ scratch.old }
    ensures written { (set : RecordSet)
        → slice_get (sets_in zones.now.zones group) place ≡ Some set
        → Writes Answer (records owner.now rtype ttl
        (new_data (sets_of_places zones.now.zones group earlier.now) (data_of set.body)))
        reply.old reply.new }
    ensures truncated { IsTrue result → reply.new.is_truncated ≡ true }
{
    if earlier.len() == 0 {
        return write_until_cut(reply, Section::Answer, owner, ttl, scratch);
    }
    write_those_new(
        zones, group, earlier, place, rtype, owner, ttl, values, seen, reply, scratch,
    )
}

/// The same of a later set.
fn write_those_new(
    zones: &Zones,
    group: Group,
    earlier: &[usize],
    place: usize,
    rtype: RType,
    owner: &Name,
    ttl: u32,
    values: &[Short],
    seen: &Seen,
    reply: &mut Reply,
    scratch: &mut Scratch,
) -> bool
    requires group { IsGroupNow zones.now.zones group }
    requires earlier { ArePlaces group earlier.now }
    requires place { place < group.length }
    requires holding { IsHolding scratch.old }
    requires held { scratch.old ≡ slice_get (sets_in zones.now.zones group) place }
    requires rtype { (set : RecordSet) → scratch.old ≡ Some set → set.rtype ≡ rtype }
    requires sees { Sees (all_data (sets_of_places zones.now.zones group earlier.now)) values.now
        seen.now }
    requires within { seen.now.count ≤ length values.now }
    requires open { TakesRecords Answer reply.old }
    ensures held { scratch.new ≡ scratch.old }
    ensures written { (set : RecordSet)
        → slice_get (sets_in zones.now.zones group) place ≡ Some set
        → Writes Answer (records owner.now rtype ttl
        (new_data (sets_of_places zones.now.zones group earlier.now) (data_of set.body)))
        reply.old reply.new }
    ensures truncated { IsTrue result → reply.new.is_truncated ≡ true }
{
    records_add_up();
    for i in 0..count_of(scratch) {
        if write_if_new(
            zones, group, earlier, place, i, rtype, owner, ttl, values, seen, reply, scratch,
        ) {
            return true;
        }
    }
    false
}

/// Writes a value of the set at a place, which is held, where no earlier set has it, and tells
/// whether that shows the reply to be cut.
fn write_if_new(
    zones: &Zones,
    group: Group,
    earlier: &[usize],
    place: usize,
    i: usize,
    rtype: RType,
    owner: &Name,
    ttl: u32,
    values: &[Short],
    seen: &Seen,
    reply: &mut Reply,
    scratch: &mut Scratch,
) -> bool
    requires group { IsGroupNow zones.now.zones group }
    requires earlier { ArePlaces group earlier.now }
    requires place { place < group.length }
    requires held { scratch.old ≡ slice_get (sets_in zones.now.zones group) place }
    requires value { HasValue scratch.old i }
    requires rtype { (set : RecordSet) → scratch.old ≡ Some set → set.rtype ≡ rtype }
    requires sees { Sees (all_data (sets_of_places zones.now.zones group earlier.now)) values.now
        seen.now }
    requires within { seen.now.count ≤ length values.now }
    requires open { TakesRecords Answer reply.old }
    ensures held { scratch.new ≡ scratch.old }
    ensures written { (set : RecordSet) (rdata : List ℕ) → scratch.old ≡ Some set
        → slice_get (data_of set.body) i ≡ Some rdata
        → Writes Answer (records owner.now rtype ttl
        (new_data (sets_of_places zones.now.zones group earlier.now) (rdata ∷ [])))
        reply.old reply.new }
    ensures truncated { IsTrue result → reply.new.is_truncated ≡ true }
{
    match is_seen(values, seen, rdata_at(scratch, rtype, i)) {
        Some(is_old) => {
            if is_old {
                return false;
            }
            let rdata = rdata_at(scratch, rtype, i);
            write_or_cut(reply, Section::Answer, owner, rtype, ttl, rdata)
        }
        None => write_compared(
            zones, group, earlier, place, i, rtype, owner, ttl, reply, scratch,
        ),
    }
}

/// The same by a comparison with all values of the earlier sets.
fn write_compared(
    zones: &Zones,
    group: Group,
    earlier: &[usize],
    place: usize,
    i: usize,
    rtype: RType,
    owner: &Name,
    ttl: u32,
    reply: &mut Reply,
    scratch: &mut Scratch,
) -> bool
    requires group { IsGroupNow zones.now.zones group }
    requires earlier { ArePlaces group earlier.now }
    requires place { place < group.length }
    requires held { scratch.old ≡ slice_get (sets_in zones.now.zones group) place }
    requires value { HasValue scratch.old i }
    requires rtype { (set : RecordSet) → scratch.old ≡ Some set → set.rtype ≡ rtype }
    requires open { TakesRecords Answer reply.old }
    ensures held { scratch.new ≡ scratch.old }
    ensures written { (set : RecordSet) (rdata : List ℕ) → scratch.old ≡ Some set
        → slice_get (data_of set.body) i ≡ Some rdata
        → Writes Answer (records owner.now rtype ttl
        (new_data (sets_of_places zones.now.zones group earlier.now) (rdata ∷ [])))
        reply.old reply.new }
    ensures truncated { IsTrue result → reply.new.is_truncated ≡ true }
{
    if rdata_at(scratch, rtype, i).len() <= FEW_OCTETS {
        let mut octets = [0; FEW_OCTETS];
        return write_copied(
            zones,
            group,
            earlier,
            place,
            i,
            rtype,
            owner,
            ttl,
            &mut octets,
            reply,
            scratch,
        );
    }
    let mut octets = [0; MOST_OCTETS];
    write_copied(
        zones,
        group,
        earlier,
        place,
        i,
        rtype,
        owner,
        ttl,
        &mut octets,
        reply,
        scratch,
    )
}

/// The same with room to which the value is copied.
fn write_copied(
    zones: &Zones,
    group: Group,
    earlier: &[usize],
    place: usize,
    i: usize,
    rtype: RType,
    owner: &Name,
    ttl: u32,
    octets: &mut [u8],
    reply: &mut Reply,
    scratch: &mut Scratch,
) -> bool
    requires group { IsGroupNow zones.now.zones group }
    requires earlier { ArePlaces group earlier.now }
    requires place { place < group.length }
    requires held { scratch.old ≡ slice_get (sets_in zones.now.zones group) place }
    requires value { HasValue scratch.old i }
    requires rtype { (set : RecordSet) → scratch.old ≡ Some set → set.rtype ≡ rtype }
    requires room { (set : RecordSet) (rdata : List ℕ) → scratch.old ≡ Some set
        → slice_get (data_of set.body) i ≡ Some rdata → length rdata ≤ length octets.old }
    requires open { TakesRecords Answer reply.old }
    ensures held { scratch.new ≡ scratch.old }
    ensures written { (set : RecordSet) (rdata : List ℕ) → scratch.old ≡ Some set
        → slice_get (data_of set.body) i ≡ Some rdata
        → Writes Answer (records owner.now rtype ttl
        (new_data (sets_of_places zones.now.zones group earlier.now) (rdata ∷ [])))
        reply.old reply.new }
    ensures truncated { IsTrue result → reply.new.is_truncated ≡ true }
{
    records_add_up();
    let length = copy_rdata(scratch, rtype, i, octets);
    let rdata = front(octets, length);
    let is_old = is_in_sets(zones, group, earlier, rdata, scratch);
    load_member(zones, group, place, scratch);
    if is_old {
        return false;
    }
    write_or_cut(reply, Section::Answer, owner, rtype, ttl, rdata)
}

/// Copies the data of a value to the front, and says how many octets they have.
fn copy_rdata(scratch: &Scratch, rtype: RType, i: usize, into: &mut [u8]) -> usize
    requires value { HasValue scratch.now i }
    requires rtype { (set : RecordSet) → scratch.now ≡ Some set → set.rtype ≡ rtype }
    requires room { (set : RecordSet) (rdata : List ℕ) → scratch.now ≡ Some set
        → slice_get (data_of set.body) i ≡ Some rdata → length rdata ≤ length into.old }
    ensures copied { (set : RecordSet) → scratch.now ≡ Some set
        → slice_get (data_of set.body) i ≡ Some (take result into.new) }
    ensures layout { IsLayout rtype (take result into.new) }
    ensures within { result ≤ length into.new }
{
    let rdata = rdata_at(scratch, rtype, i);
    fill_front(into, rdata);
    rdata.len()
}

/// Whether one of the sets at some places has a value.
fn is_in_sets(
    zones: &Zones,
    group: Group,
    places: &[usize],
    rdata: &[u8],
    scratch: &mut Scratch,
) -> bool
    requires group { IsGroupNow zones.now.zones group }
    requires places { ArePlaces group places.now }
    ensures { result
        ≡ is_among (all_data (sets_of_places zones.now.zones group places.now)) rdata.now }
{
    for place in places {
        load_member(zones, group, *place, scratch);
        if has_value(scratch, rdata) {
            return true;
        }
    }
    false
}

/// Whether the set that is held has a value.
fn has_value(scratch: &Scratch, rdata: &[u8]) -> bool
    requires { IsHolding scratch.now }
    ensures { (set : RecordSet) → scratch.now ≡ Some set
        → result ≡ is_among (data_of set.body) rdata.now }
{
    for i in 0..count_of(scratch) {
        if is_same(rdata, scratch.value(i)) {
            return true;
        }
    }
    false
}

/// Whether octets are the same.
fn is_same(octets: &[u8], others: &[u8]) -> bool
    ensures { result ≡ bytes_eq octets.now others.now }
{
    octets == others
}
