//! The zones of a server: each look-up and each edit, one call a question.

ghost use Rattle.std.specs.Prelude.{◌≡◌, ◌≢◌, ◌≤◌, ◌<◌, ◌+◌, ◌-◌, ◌%◌, ◌^◌, ◌++◌, length, List, ℕ, []};
ghost use Rattle.std.specs.Prelude.{IfOk, IsTrue, ◌↔◌, false, take};
ghost use Rattle.zone_list.specs.Existing.{Exists, IsAncestor, IsClosest};
ghost use Rattle.zone_list.specs.FoundOfSetSearch.{IsBelowAt};
ghost use Rattle.zone_list.specs.Slotted.{sets_of};
ghost use Rattle.zone_list.specs.Policies.{PolicyIsAt, set_piece, set_pieces};
ghost use Rattle.zone_list.specs.RecordSetRecord.{RecordSet};
ghost use Rattle.zone_list.specs.Spelling.{IsPart, from_policy};
ghost use Rattle.zone_list.specs.Sums.{aliases_of, checked_of, octets_of};
ghost use Rattle.zone_list.specs.Found.{NextZoneOrNone};
ghost use Rattle.zone_list.specs.Zones.{AreZones, IsZoneId, placed_in};
ghost use Rattle.zone_finding.specs.Counted.{octets_in_all, sets_in_all};
ghost use Rattle.zone_table.specs.Edits.{Edits, IsAllowed, IsReady, StayReady};
ghost use Rattle.zone_table.specs.Edits.{collections_after};
ghost use Rattle.zone_table.specs.Needs.{Prepares};
ghost use Rattle.zone_finding.specs.Looking.{ApexOrNone, HasNameAt, HolderOrNone, IsZoneForOrNone};
ghost use Rattle.zone_finding.specs.Looking.{IsApex, IsGroup, IsGroupNow, RefersTo, slots_in};
ghost use Rattle.zone_finding.specs.Looking.{HasNoStar, IsSetOfGroup, IsNextSet, IsSetAt, Loads, ServersAreAt};
ghost use Rattle.zone_finding.specs.Looking.{Targets, Watches, bound_of};
ghost use Rattle.zone_table.specs.Tables.{HaveSlotsApart, HaveSlotsBelow};
ghost use Rattle.zone_list.specs.Stops.{bound_of as told};

use crate::edits::{Ready, ZoneEdit};
use crate::making::{make, note_name, settle, settle_all};
use crate::needs::{Need, need_of, reserve_for, reserve_name};
use crate::refs::Delta;
use cidr_routing::Collections;
use octets::OutOfMemory;
use std::alloc::Global;
use std::marker::Model;
use zone_finding::{
    Group, apex_of, copies, has_name, hint_of, hint_or, is_below, load, may_have_cuts,
    may_have_wildcards, order_of, piece, pieces, policy, slot_at, slot_behind, slot_in, slots_of,
    sums_in, target, view_near, watch, zone_sets,
};
use zone_list::{
    Apexes, Name, RType, RecordSet, Scratch, SetKey, SetRef, SetSlots, Stop, StoredZone, Watch,
    before_key, behind_key, closest_in, exists_in, find_zone, group_in, longest, make_room,
    next_id,
};

/// The zones of a server, by rising number, and the sets of all of them.
#[derive(Drop)]
pub struct Zones {
    store: SetSlots,
    list: Vec<StoredZone>,
    /// Their names, where these are known.
    apexes: Apexes,
    collections: Collections,
    /// How many octets the sets of all zones have.
    octets: u64,
    /// How many edits were made, modulo 2^64.
    edits: u64,
    /// Whether it is put off that hints are made anew.
    put_off: bool,
}

impl Model for Zones {
    ghost use Rattle.std.specs.Prelude.{◌-◌, length, map, vec_capacity};
    ghost use Rattle.zone_list.specs.Kept.{AreIntact, zones_in};
    ghost use Rattle.zone_table.specs.Apexes.{KnowsNames};
    ghost use Rattle.zone_finding.specs.Counted.{AreCounted};
    ghost use Rattle.zone_table.specs.Tables.{Table};

    ghost Value = { Table };

    ghost view = { λ z. record {
      zones = zones_in z.store.slots z.list.items;
      slots = length z.store.slots;
      rooms = map (λ k. k.room) z.list.items;
      spare = vec_capacity z.list - length z.list.items;
      free = z.store.free;
      cells = z.store.cells;
      collections = z.collections;
      edits = z.edits;
    } };

    ghost invariant = { λ z. AreIntact z.store.slots z.list.items
        × AreCounted z.store z.list.items z.octets
        × KnowsNames z.apexes (zones_in z.store.slots z.list.items) };
}

impl Zones {
    /// No zones, and no collections.
    pub fn new(alloc: Global) -> Zones
        ensures zones { result.zones ≡ [] }
        ensures collections { result.collections ≡ record { next = 1; list = [] } }
        ensures edits { result.edits ≡ 0 }
    {
        Zones {
            store: SetSlots::new(alloc),
            list: Vec::new(alloc),
            apexes: Apexes::new(alloc),
            collections: Collections::new(alloc),
            octets: 0,
            edits: 0,
            put_off: false,
        }
    }

    /// The zones stand by rising number with names of their own, and the sets of each are those of
    /// a zone; it does nothing.
    pub fn well_formed(&self)
        ensures { AreZones self.now.zones }
    {
        self.store.slots();
    }

    /// No slot stands in two zones, so that a slot alone tells a set; it does nothing.
    pub fn slots_apart(&self)
        ensures { HaveSlotsApart self.now.zones }
    {
        self.store.slots();
    }

    /// How many zones there are.
    pub fn len(&self) -> usize
        ensures { result ≡ length self.now.zones }
    {
        self.list.len()
    }

    /// How many slots there are, in use or free: what an array over slots has room for.
    pub fn slots(&self) -> usize
        ensures { result ≡ self.now.slots }
    {
        self.store.slots()
    }

    /// Each slot in which a set stands is below `slots`, and these are at most 2^32; it does
    /// nothing.
    pub fn slots_within(&self)
        ensures within { HaveSlotsBelow self.now.zones self.now.slots }
        ensures most { self.now.slots ≤ 2 ^ 32 }
    {
        self.store.slots();
    }

    /// How many sets a zone has. None has any where it isn't there.
    pub fn count(&self, zone: u32) -> usize
        ensures { result ≡ length (placed_in self.now.zones zone) }
    {
        match order_of(&self.store, &self.list, zone) {
            Some(order) => order.len(),
            None => 0,
        }
    }

    /// The set at a place of a zone in zone order, where the zone has as many.
    pub fn at(&self, zone: u32, i: usize) -> Option<SetRef>
        ensures { IsSetAt self.now.zones zone i result }
    {
        match slot_at(&self.store, &self.list, zone, i) {
            Some(slot) => Some(SetRef { zone, slot }),
            None => None,
        }
    }

    /// Whether there is a set at a place of a zone that has the name.
    pub fn has_name(&self, zone: u32, i: usize, name: &Name) -> bool
        ensures { IsTrue result ↔ HasNameAt self.now.zones zone i name.now }
    {
        has_name(&self.store, &self.list, zone, i, name)
    }

    /// Whether there is a set at a place of a zone that has the name, or one below it. The set isn't
    /// held.
    pub fn is_below(&self, zone: u32, i: usize, name: &Name) -> bool
        ensures { IsTrue result ↔ IsBelowAt (sets_of (placed_in self.now.zones zone)) name.now i }
    {
        is_below(&self.store, &self.list, zone, i, name)
    }

    /// How many octets the sets of a zone have.
    pub fn octets(&self, zone: u32) -> u64
        ensures { result ≡ octets_of (placed_in self.now.zones zone) }
    {
        self.store.slots();
        sums_in(&self.store, &self.list, zone).octets
    }

    /// How many sets of a zone are aliases.
    pub fn aliases(&self, zone: u32) -> usize
        ensures { result ≡ aliases_of (placed_in self.now.zones zone) }
    {
        self.store.slots();
        sums_in(&self.store, &self.list, zone).aliases as usize
    }

    /// How many sets of a zone name a health check.
    pub fn checked(&self, zone: u32) -> usize
        ensures { result ≡ checked_of (placed_in self.now.zones zone) }
    {
        self.store.slots();
        sums_in(&self.store, &self.list, zone).checked as usize
    }

    /// Whether a zone may have NS sets below its apex. `false` is told only where none has another
    /// name than that, by what is counted of the zone's sets.
    pub fn may_have_cuts(&self, zone: u32) -> bool
        ensures { result ≡ false → (apex : List (List ℕ)) → IsApex self.now.zones zone apex
            → ServersAreAt self.now.zones zone apex }
    {
        self.store.slots();
        may_have_cuts(&self.store, &self.list, zone)
    }

    /// Whether a zone may have sets with the label `*` in their names. `false` is told only where none
    /// has, by what is counted of the zone's sets.
    pub fn may_have_wildcards(&self, zone: u32) -> bool
        ensures { result ≡ false → HasNoStar self.now.zones zone }
    {
        self.store.slots();
        may_have_wildcards(&self.store, &self.list, zone)
    }

    /// How many sets all zones have.
    pub fn all_sets(&self) -> u64
        ensures { result ≡ sets_in_all self.now.zones }
    {
        (self.store.slots() - self.store.spare()) as u64
    }

    /// How many octets the sets of all zones have.
    pub fn all_octets(&self) -> u64
        ensures { result ≡ octets_in_all self.now.zones }
    {
        self.store.slots();
        self.octets
    }

    /// Copies of all sets of a zone, in zone order.
    pub fn sets(&self, alloc: Global, zone: u32) -> Result<Vec<RecordSet>, OutOfMemory>
        requires { IsZoneId self.now.zones zone }
        ensures { IfOk result (λ sets. sets.items ≡ sets_of (placed_in self.now.zones zone)) }
    {
        match order_of(&self.store, &self.list, zone) {
            Some(order) => copies(alloc, &self.store, zone, order),
            None => unreachable!(),
        }
    }

    /// The collections of address blocks.
    pub fn collections(&self) -> &Collections
        ensures { result.now ≡ self.now.collections }
    {
        &self.collections
    }

    /// The zone that holds a name: the one of the longest name at or above it.
    pub fn zone_for(&self, name: &Name) -> Option<u32>
        ensures { IsZoneForOrNone self.now.zones name.now result }
    {
        if self.apexes.is_known() {
            return self.apexes.longest(name);
        }
        match longest(&self.list, name) {
            Some((id, _)) => Some(id),
            None => None,
        }
    }

    /// The same with the name of its apex, which isn't copied.
    pub fn holder(&self, name: &Name) -> Option<(u32, &Name)>
        ensures { HolderOrNone self.now.zones name.now result }
    {
        let Some(zone) = self.zone_for(name) else {
            return None;
        };
        match apex_of(&self.store, &self.list, zone) {
            Some(apex) => Some((zone, apex)),
            None => unreachable!(),
        }
    }

    /// The next zone by number.
    pub fn zone_after(&self, zone: u32) -> Option<u32>
        ensures { NextZoneOrNone self.now.zones zone result }
    {
        next_id(&self.list, zone)
    }

    /// The name of a zone's apex.
    pub fn apex(&self, zone: u32) -> Option<Name>
        ensures { ApexOrNone self.now.zones zone result }
    {
        match find_zone(&self.list, zone) {
            Some(place) => Some(*self.list[place].apex()),
            None => None,
        }
    }

    /// The sets of a name and type.
    pub fn group(&self, zone: u32, name: &Name, rtype: RType) -> Group
        ensures { IsGroup self.now.zones zone name.now rtype result }
    {
        self.group_near(zone, name, rtype, None)
    }

    /// The same with a hint: a place at which they may stand, as that of the sets of the last name
    /// where names are looked up in their order.
    pub fn group_near(&self, zone: u32, name: &Name, rtype: RType, near: Option<usize>) -> Group
        ensures { IsGroup self.now.zones zone name.now rtype result }
    {
        match view_near(&self.store, &self.list, zone, name) {
            Some((sets, told)) => {
                let hint = hint_or(&self.list, zone, name, told.or(near));
                let (start, length) = group_in(&sets, name, rtype, hint);
                Group {
                    zone,
                    start,
                    length,
                }
            }
            None => Group {
                zone,
                start: 0,
                length: 0,
            },
        }
    }

    /// The set at a place of a group.
    pub fn member(&self, group: Group, i: usize) -> SetRef
        requires group { IsGroupNow self.now.zones group }
        requires within { i < group.length }
        ensures { IsSetOfGroup self.now.zones group i result }
    {
        SetRef {
            zone: group.zone,
            slot: slot_in(&self.store, &self.list, group.zone, group.start, i),
        }
    }

    /// The slots of the sets of a group, in their order: with the zone's number the references.
    pub fn slots_of(&self, group: Group) -> &[u32]
        requires { IsGroupNow self.now.zones group }
        ensures { result.now ≡ slots_in self.now.zones group }
    {
        slots_of(&self.store, &self.list, group)
    }

    /// Loads the set that a reference names. Where it names none, what was held stays.
    pub fn load(&self, set: SetRef, into: &mut Scratch) -> bool
        ensures { Loads self.now.zones set into.old into.new result }
    {
        load(&self.store, &self.list, set, into)
    }

    /// The octets of the set that a reference names from its policy on, as many as a buffer has room
    /// for: they are neither walked nor loaded. The caller knows that the reference names a set, and
    /// the place at which its policy stands.
    pub fn policy<'a>(&self, set: SetRef, at: usize, buffer: &'a mut [u8]) -> &'a [u8]
        requires { (named : RecordSet) × RefersTo self.now.zones set named }
        ensures { (named : RecordSet) → RefersTo self.now.zones set named → PolicyIsAt named at
            → IsPart result.now (take (length buffer.old) (from_policy named)) named }
    {
        policy(&self.store, &self.list, set, at, buffer)
    }

    /// The octets of the set that a reference names from a place on, up to the end of the 32 among
    /// which the place is, lent. The caller knows that the reference names a set.
    pub fn piece(&self, set: SetRef, place: usize) -> &[u8]
        requires { (named : RecordSet) × RefersTo self.now.zones set named }
        ensures { (named : RecordSet) → RefersTo self.now.zones set named
            → IsPart result.now (set_piece named place) named }
    {
        piece(&self.store, &self.list, set, place)
    }

    /// The same up to the end of the 32 behind those, in two parts, one behind the other.
    pub fn pieces(&self, set: SetRef, place: usize) -> (&[u8], &[u8])
        requires { (named : RecordSet) × RefersTo self.now.zones set named }
        ensures { (named : RecordSet) → RefersTo self.now.zones set named
            → IsPart (result.0.now ++ result.1.now) (set_pieces named place) named }
    {
        pieces(&self.store, &self.list, set, place)
    }

    /// What decides the health of the set that a reference names. None where it names none.
    pub fn watch(&self, set: SetRef) -> Option<Watch>
        ensures { Watches self.now.zones set result }
    {
        watch(&self.store, &self.list, set)
    }

    /// The name and the type of the target group of the alias that a reference names. None where it
    /// names no set, or one that is no alias.
    pub fn target(&self, set: SetRef) -> Option<(Name, RType)>
        ensures { Targets self.now.zones set result }
    {
        target(&self.store, &self.list, set)
    }

    /// Whether a name exists in a zone: whether a set has it, or a name below it.
    pub fn exists(&self, zone: u32, name: &Name) -> bool
        ensures { IsTrue result ↔ Exists (sets_of (placed_in self.now.zones zone)) name.now }
    {
        match zone_sets(&self.store, &self.list, zone) {
            Some(sets) => exists_in(&sets, name, hint_of(&self.list, zone, name)),
            None => false,
        }
    }

    /// The longest ancestor of a name that exists in a zone.
    pub fn closest(&self, zone: u32, name: &Name) -> Name
        requires below { (apex : List (List ℕ)) × IsApex self.now.zones zone apex
            × IsAncestor name.now apex }
        requires some { placed_in self.now.zones zone ≢ [] }
        ensures { IsClosest (sets_of (placed_in self.now.zones zone)) name.now result }
    {
        match zone_sets(&self.store, &self.list, zone) {
            Some(sets) => closest_in(&sets, name),
            None => unreachable!(),
        }
    }

    /// The first set of a zone that isn't before the key, or where `past` is set the first that is
    /// behind it.
    pub fn next_from(&self, zone: u32, from: &SetKey, past: bool) -> Option<SetRef>
        ensures { IsNextSet self.now.zones zone (bound_of from.now past) result }
    {
        let hint = hint_of(&self.list, zone, &from.name);
        match slot_behind(&self.store, &self.list, zone, &stop_at(from, past), hint) {
            Some(slot) => Some(SetRef { zone, slot }),
            None => None,
        }
    }

    /// Makes an edit ready: takes all its memory. The zones stay as they are, and edits that are
    /// ready stay ready, also where memory runs out.
    pub fn ready(&mut self, alloc: Global, edit: ZoneEdit) -> Result<Ready, OutOfMemory>
        requires { IsAllowed self.old.zones edit }
        ensures zones { self.new.zones ≡ self.old.zones }
        ensures collections { self.new.collections ≡ self.old.collections }
        ensures slots { self.old.slots ≤ self.new.slots }
        ensures edits { self.new.edits ≡ self.old.edits }
        ensures made { IfOk result (λ ready. ready.made ≡ edit) }
        ensures ready { IfOk result (λ ready. IsReady self.new ready) }
        ensures others { StayReady self.old self.new }
    {
        let Ok(need) = self.reserve(&edit) else {
            drop(edit);
            return Err(OutOfMemory);
        };
        Ready::new(alloc, edit, self.edits, need)
    }

    /// Takes the memory that an edit wants of the zones, and tells what it wants beside. The zones
    /// stay as they are, and edits that are ready stay ready, also where memory runs out.
    fn reserve(&mut self, edit: &ZoneEdit) -> Result<Need, OutOfMemory>
        requires { IsAllowed self.old.zones edit.now }
        ensures zones { self.new.zones ≡ self.old.zones }
        ensures collections { self.new.collections ≡ self.old.collections }
        ensures slots { self.old.slots ≤ self.new.slots }
        ensures edits { self.new.edits ≡ self.old.edits }
        ensures room { IfOk result (λ need. Prepares self.new edit.now need) }
        ensures others { StayReady self.old self.new }
    {
        reserve_name(&mut self.apexes, edit)?;
        let need = need_of(&self.list, edit)?;
        make_room(&mut self.store, need.addable, need.cells)?;
        reserve_for(&mut self.list, edit)?;
        Ok(need)
    }

    /// Makes an edit that is ready. Tells the references of the sets that went and of those that
    /// came.
    pub fn edit(&mut self, ready: Ready) -> Delta
        requires { IsReady self.old ready }
        ensures edits { Edits self.old.zones ready.made self.new.zones result }
        ensures collections { self.new.collections
            ≡ collections_after ready.made self.old.collections }
        ensures slots { self.new.slots ≡ self.old.slots }
        ensures count { self.new.edits ≡ (self.old.edits + 1) % 2 ^ 64 }
    {
        self.edits = self.edits.wrapping_add(1);
        note_name(&mut self.apexes, &ready.made);
        let delta = make(
            &mut self.store,
            &mut self.list,
            &mut self.collections,
            &mut self.octets,
            ready,
        );
        settle(&self.store, &mut self.list, delta.zone, self.put_off);
        delta
    }

    /// Edits put it off from now on that hints are made anew, which only tell where to look first.
    /// Where many edits follow one another, each of them might make a table anew.
    pub fn put_hints_off(&mut self)
        ensures { self.new ≡ self.old }
    {
        self.put_off = true;
    }

    /// Makes all hints anew that are old; from now on edits do so.
    pub fn settle_hints(&mut self)
        ensures { self.new ≡ self.old }
    {
        self.put_off = false;
        settle_all(&self.store, &mut self.list);
    }
}

/// The bound in front of a key, or behind it.
fn stop_at(key: &SetKey, past: bool) -> Stop
    ensures { told result ≡ bound_of key.now past }
{
    if past {
        behind_key(key)
    } else {
        before_key(key)
    }
}
