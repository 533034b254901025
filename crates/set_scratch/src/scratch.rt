//! Room for one set, and readers of the set that it holds.

ghost use Rattle.std.specs.Prelude.{◌≡◌, ◌≤◌, ◌++◌, ℕ, List, length, None, Some, IfOk, IfSome};
ghost use Rattle.std.specs.Prelude.{slice_get, take, vec_capacity};
ghost use Rattle.std.specs.FinMap as map;
ghost use Rattle.set_parts.specs.Names.{AreOctets};
ghost use Rattle.set_parts.specs.Layout.{IsLayout};
ghost use Rattle.set_parts.specs.RecordSetRecord.{RecordSet};
ghost use Rattle.set_parts.specs.SetsOfRecordSet.{key_of};
ghost use Rattle.set_parts.specs.Octets.{HasSpelling, check_octets, most_octets, set_octets};
ghost use Rattle.set_scratch.specs.Bodies.{alias_of, ttl_of, values_of, wires_of};
ghost use Rattle.set_scratch.specs.Holding.{HasValue, IsHolding};
ghost use Rattle.set_scratch.specs.Kept.{IsIntact, most_values};
ghost use Rattle.set_scratch.specs.Spelling.{IsPart, Spells, from_body, from_policy, from_type};
ghost use Rattle.set_scratch.specs.Spelling.{held_of};

use crate::parts::{alias_in, check_in, name_of, routing_in, ttl_in, type_in, value_at};
use crate::places::{Places, find_parts};
use octet_region::{Handle, Region};
use octets::{OutOfMemory, behind, front, zeros};
use set_parts::{
    MOST_OCTETS, Name, RType, RecordSet, Routing, SetKey, fill_set, ident_of, well_formed,
    written_reads_back,
};
use std::alloc::Global;
use std::marker::Model;

/// The most values of a set, since each has two octets at least.
const MOST_VALUES: usize = 32_768;

/// Room for one set, and the set that it holds, if any.
///
/// A reader asks that a set is held.
#[derive(Drop)]
pub struct Scratch {
    /// The set's octets at the front.
    octets: Vec<u8>,
    /// How many these are, none where no set is held, and where its parts begin.
    places: Places,
    /// Where each value begins, with the two octets of its length.
    starts: Vec<u16>,
}

impl Model for Scratch {
    ghost use Rattle.std.specs.Prelude.{Option, vec_capacity};
    ghost use Rattle.set_parts.specs.RecordSetRecord.{RecordSet};
    ghost use Rattle.set_scratch.specs.Kept.{IsIntact};
    ghost use Rattle.set_scratch.specs.Spelling.{held_of};

    ghost Value = { Option RecordSet };

    ghost view = { λ a. held_of a.octets.items a.places.len };

    ghost invariant = { λ a.
        IsIntact a.octets.items a.places a.starts.items (vec_capacity a.starts) };
}

impl Scratch {
    /// Room that holds no set. All memory is taken here, and no other call takes any.
    pub fn new(alloc: Global) -> Result<Scratch, OutOfMemory>
        ensures { IfOk result (λ scratch. scratch ≡ None) }
    {
        let octets = zeros(alloc, MOST_OCTETS)?;
        let starts = Vec::with_capacity(alloc, MOST_VALUES)?;
        let places = Places {
            len: 0,
            name: 0,
            body: 0,
            check: 0,
        };
        Ok(Scratch {
            octets,
            places,
            starts,
        })
    }

    /// Holds the octets of a set, in place of the set that it held.
    pub fn hold(&mut self, set: &RecordSet)
        requires { HasSpelling set.now }
        ensures { self.new ≡ Some set.now }
    {
        self.places = keep_set(set, self.octets.as_mut_slice(), &mut self.starts);
    }

    /// Holds the octets of a handle, which are a set's, in place of the set that it held.
    pub fn hold_octets(&mut self, region: &Region, handle: Handle)
        requires { (set : RecordSet) × (octets : List ℕ)
            × (map.get region.now.held handle ≡ Some octets) × Spells octets set }
        ensures { (set : RecordSet) (octets : List ℕ)
            → map.get region.now.held handle ≡ Some octets → Spells octets set
            → self.new ≡ Some set }
    {
        self.places = keep_octets(region, handle, self.octets.as_mut_slice(), &mut self.starts);
    }

    /// The octets of the set.
    pub fn bytes(&self) -> &[u8]
        requires { IsHolding self.now }
        ensures { IfSome self.now (λ set. result.now ≡ set_octets set) }
    {
        self.spelled()
    }

    /// The name of the set.
    pub fn name(&self) -> Name
        requires { IsHolding self.now }
        ensures { IfSome self.now (λ set. result ≡ set.name) }
    {
        name_of(self.spelled())
    }

    /// The type of the set.
    pub fn rtype(&self) -> RType
        requires { IsHolding self.now }
        ensures { IfSome self.now (λ set. result ≡ set.rtype) }
    {
        type_in(self.typed())
    }

    /// The routing policy of the set.
    pub fn routing(&self) -> Routing
        requires { IsHolding self.now }
        ensures { IfSome self.now (λ set. result ≡ set.routing) }
    {
        routing_in(self.policy())
    }

    /// What names the set.
    pub fn key(&self) -> SetKey
        requires { IsHolding self.now }
        ensures { IfSome self.now (λ set. result ≡ key_of set) }
    {
        SetKey {
            name: self.name(),
            rtype: self.rtype(),
            ident: ident_of(&self.routing()).copied(),
        }
    }

    /// The number of the health check that the set names.
    pub fn check(&self) -> Option<u32>
        requires { IsHolding self.now }
        ensures { IfSome self.now (λ set. result ≡ set.check) }
    {
        check_in(self.last())
    }

    /// The target of an alias, and whether the health of the target's sets counts.
    pub fn alias(&self) -> Option<(Name, bool)>
        requires { IsHolding self.now }
        ensures { IfSome self.now (λ set. result ≡ alias_of set.body) }
    {
        alias_in(self.answers())
    }

    /// The time to live, 0 for an alias.
    pub fn ttl(&self) -> u32
        requires { IsHolding self.now }
        ensures { IfSome self.now (λ set. result ≡ ttl_of set.body) }
    {
        ttl_in(self.answers())
    }

    /// How many values the set has, none for an alias.
    pub fn values(&self) -> usize
        requires { IsHolding self.now }
        ensures { IfSome self.now (λ set. result ≡ length (values_of set.body)) }
    {
        self.starts.len()
    }

    /// The octets of a value on the wire, with names whole and in lower case.
    pub fn value(&self, i: usize) -> &[u8]
        requires { HasValue self.now i }
        ensures wire { IfSome self.now (λ set. slice_get (wires_of set.body) i ≡ Some result.now) }
        ensures layout { IfSome self.now (λ set. IsLayout set.rtype result.now) }
        ensures octets { AreOctets result.now }
    {
        let wire = value_at(front(&self.octets, self.places.len), &self.starts, i);
        known_octets(wire);
        wire
    }

    /// The octets of the set, and that they are.
    fn spelled(&self) -> &[u8]
        requires { IsHolding self.now }
        ensures { IfSome self.now (λ set. Spells result.now set) }
    {
        front(&self.octets, self.places.len)
    }

    /// The octets of the set from its type on.
    fn typed(&self) -> &[u8]
        requires { IsHolding self.now }
        ensures { IfSome self.now (λ set. IsPart result.now (from_type set) set) }
    {
        behind(front(&self.octets, self.places.len), self.places.name)
    }

    /// The octets of the set from its policy on, by which single parts of the policy are told.
    pub fn policy(&self) -> &[u8]
        requires { IsHolding self.now }
        ensures { IfSome self.now (λ set. IsPart result.now (from_policy set) set) }
    {
        behind(front(&self.octets, self.places.len), self.places.name + 2)
    }

    /// The octets of the set from its body on.
    fn answers(&self) -> &[u8]
        requires { IsHolding self.now }
        ensures { IfSome self.now (λ set. IsPart result.now (from_body set) set) }
    {
        behind(front(&self.octets, self.places.len), self.places.body)
    }

    /// The octets of the set's check.
    fn last(&self) -> &[u8]
        requires { IsHolding self.now }
        ensures { IfSome self.now (λ set. result.now ≡ check_octets set.check) }
    {
        behind(front(&self.octets, self.places.len), self.places.check)
    }
}

/// The octets of a slice are octets; it does nothing.
fn known_octets(octets: &[u8])
    ensures { AreOctets octets.now }
{}

/// Keeps a set: its octets at the front, and the places of its values over others.
fn keep_set(set: &RecordSet, octets: &mut [u8], starts: &mut Vec<u16>) -> Places
    requires size { length octets.old ≡ most_octets }
    requires room { most_values ≤ vec_capacity starts.old }
    requires spelling { HasSpelling set.now }
    ensures kept { IsIntact octets.new result starts.new.items (vec_capacity starts.new) }
    ensures held { held_of octets.new result.len ≡ Some set.now }
{
    well_formed(set);
    written_reads_back();
    let len = fill_set(set, octets, 0);
    find_parts(front(octets, len), starts)
}

/// Keeps the set whose octets a handle holds.
fn keep_octets(region: &Region, handle: Handle, octets: &mut [u8], starts: &mut Vec<u16>) -> Places
    requires size { length octets.old ≡ most_octets }
    requires room { most_values ≤ vec_capacity starts.old }
    requires spelled { (set : RecordSet) × (spelling : List ℕ)
        × (map.get region.now.held handle ≡ Some spelling) × Spells spelling set }
    ensures kept { IsIntact octets.new result starts.new.items (vec_capacity starts.new) }
    ensures held { (set : RecordSet) (spelling : List ℕ)
        → map.get region.now.held handle ≡ Some spelling → Spells spelling set
        → held_of octets.new result.len ≡ Some set }
{
    written_reads_back();
    let len = copy_all(region, handle, octets);
    find_parts(front(octets, len), starts)
}

/// Copies what a handle holds to the front, and says how many octets they are.
fn copy_all(region: &Region, handle: Handle, into: &mut [u8]) -> usize
    requires { (octets : List ℕ)
        → map.get region.now.held handle ≡ Some octets → length octets ≤ length into.old }
    ensures there { (octets : List ℕ)
        → map.get region.now.held handle ≡ Some octets
        → take result into.new ≡ octets }
    ensures length { (octets : List ℕ)
        → map.get region.now.held handle ≡ Some octets → result ≡ length octets }
    ensures size { length into.new ≡ length into.old }
    ensures within { result ≤ length into.new }
{
    match region.copy_to(handle, into) {
        Some(len) => len,
        None => 0,
    }
}
