//! Sets read where they stand: compared with bounds and names, and copied.

ghost use Rattle.std.specs.Prelude.{◌≡◌, ◌≢◌, ◌≤◌, ◌<◌, ◌+◌, ◌-◌, ◌%◌, ◌++◌, ℕ, List, drop, length};
ghost use Rattle.std.specs.Prelude.{min, take};
ghost use Rattle.std.specs.Prelude.{slice_get, Some, IfOk, IsTrue, ◌↔◌};
ghost use Rattle.set_search.specs.Suffix.{EndsWith};
ghost use Rattle.set_search.specs.RecordSetRecord.{RecordSet};
ghost use Rattle.set_scratch.specs.Octets.{most_octets, set_octets};
ghost use Rattle.set_scratch.specs.Spelling.{IsPart, from_policy};
ghost use Rattle.set_scratch.specs.Telling.{is_alias, target_of, watch_of};
ghost use Rattle.set_search.specs.Bounds.{is_before};
ghost use Rattle.set_search.specs.Found.{IsOf, TypeOrNone};
ghost use Rattle.set_search.specs.Stops.{bound_of};
ghost use Rattle.set_store.specs.Packed.{Slot};
ghost use Rattle.set_store.specs.Index.{HoldsAt};
ghost use Rattle.set_store.specs.Policies.{PolicyIsAt, set_piece, set_pieces};
ghost use Rattle.set_store.specs.Servers.{server_labels};
ghost use Rattle.set_store.specs.Stars.{is_starred};
ghost use Rattle.set_store.specs.Stored.{IsKept, IsSpelling, IsInUse, Kept, Spells, zone_told};

use crate::hashes::hash_of;
use crate::heads::{head_is_before, head_is_below, head_is_starred, head_server_labels};
use crate::siblings::{is_before_beside, is_below_beside};
use crate::slots::{NO_CELL, Slot, cell_at, tag_at};
use crate::store::SetSlots;
use crate::typed::{is_of_at, type_near};
use octets::{OutOfMemory, front, zeros};
use set_scratch::{
    Handle, ReadFault, Region, Scratch, Watch, is_alias_in, keys_are_in_front, name_and_rest,
    read_set, target_in, watch_in, written_reads_back,
};
use set_search::{Name, RType, RecordSet, Stop};
use std::alloc::Global;

/// Sets of so many octets or fewer are copied whole to be compared.
const SHORT: usize = 64;

/// Sets of so many octets or fewer are copied to be read; for longer ones there is a larger buffer.
const FEW: usize = 128;

impl SetSlots {
    /// The number of the zone of a slot's set. None where the slot is vacant or not there.
    pub fn zone_of(&self, slot: u32) -> Option<u32>
        ensures { result ≡ zone_told (slice_get self.now.slots slot) }
    {
        match self.slots.get(slot as usize) {
            None => None,
            Some(found) => {
                if found.cell() == NO_CELL {
                    return None;
                }
                Some(found.zone())
            }
        }
    }

    /// Whether the set of a slot stands before a bound.
    pub fn is_before(&self, slot: u32, stop: &Stop) -> bool
        requires { IsInUse self.now.slots slot }
        ensures { (kept : Kept) → IsKept self.now.slots slot kept
            → result ≡ is_before (bound_of stop.now) kept.set }
    {
        keys_are_in_front();
        written_reads_back();
        if let Some(before) = is_before_beside(&self.region, &self.slots, slot, stop) {
            return before;
        }
        self.is_read_before(slot, stop)
    }

    /// The same by a copy of the octets that tell the key.
    #[inline(never)]
    fn is_read_before(&self, slot: u32, stop: &Stop) -> bool
        requires { IsInUse self.now.slots slot }
        ensures { (kept : Kept) → IsKept self.now.slots slot kept
            → result ≡ is_before (bound_of stop.now) kept.set }
    {
        keys_are_in_front();
        written_reads_back();
        if size_at(&self.region, &self.slots, slot) <= SHORT {
            return head_is_before(head_at(&self.region, &self.slots, slot, &mut [0; 64]), stop);
        }
        head_is_before(
            head_at(&self.region, &self.slots, slot, &mut [0; 387]),
            stop,
        )
    }

    /// Whether the set of a slot has the name, or one below it.
    pub fn is_below(&self, slot: u32, name: &Name) -> bool
        requires { IsInUse self.now.slots slot }
        ensures { (kept : Kept) → IsKept self.now.slots slot kept
            → IsTrue result ↔ EndsWith kept.set.name name.now }
    {
        keys_are_in_front();
        written_reads_back();
        if let Some(below) = is_below_beside(&self.region, &self.slots, slot, name) {
            return below;
        }
        if size_at(&self.region, &self.slots, slot) <= SHORT {
            return head_is_below(head_at(&self.region, &self.slots, slot, &mut [0; 64]), name);
        }
        head_is_below(
            head_at(&self.region, &self.slots, slot, &mut [0; 387]),
            name,
        )
    }

    /// Whether the set of a slot has the name and the type, told where its octets stand.
    pub fn is_of(&self, slot: u32, name: &Name, rtype: RType) -> bool
        requires { IsInUse self.now.slots slot }
        ensures { (kept : Kept) → IsKept self.now.slots slot kept
            → IsTrue result ↔ IsOf name.now rtype kept.set }
    {
        written_reads_back();
        is_of_at(&self.region, &self.slots, slot, name, rtype)
    }

    /// The number of the type of a slot's set, where it has the name; None where it has not. It is
    /// told the cell in which the set's octets may begin: a hint, which may be wrong.
    #[inline(always)]
    pub fn type_near(&self, slot: u32, name: &Name, cell: u32) -> Option<u16>
        requires { IsInUse self.now.slots slot }
        ensures { (kept : Kept) → IsKept self.now.slots slot kept
            → TypeOrNone name.now kept.set result }
    {
        written_reads_back();
        type_near(&self.region, &self.slots, slot, name, cell)
    }

    /// The cell in which the octets of a slot's set begin: a hint, of which no contract speaks.
    pub fn cell_of(&self, slot: u32) -> u32 {
        match self.slots.get(slot as usize) {
            Some(held) => held.cell(),
            None => NO_CELL,
        }
    }

    /// Whether the names of the sets of two slots are told apart by their tags. Where they aren't,
    /// nothing is told.
    pub fn are_told_apart(&self, slot: u32, other: u32) -> bool
        requires slot { IsInUse self.now.slots slot }
        requires other { IsInUse self.now.slots other }
        ensures { IsTrue result → (kept another : Kept) → IsKept self.now.slots slot kept
            → IsKept self.now.slots other another → kept.set.name ≢ another.set.name }
    {
        written_reads_back();
        tag_at(&self.slots, slot) != tag_at(&self.slots, other)
    }

    /// How many labels the name of a slot's set has, where that is an NS set.
    pub fn server_labels(&self, slot: u32) -> Option<usize>
        requires { IsInUse self.now.slots slot }
        ensures { (kept : Kept) → IsKept self.now.slots slot kept
            → result ≡ server_labels kept.set }
    {
        keys_are_in_front();
        written_reads_back();
        if size_at(&self.region, &self.slots, slot) <= SHORT {
            return head_server_labels(head_at(&self.region, &self.slots, slot, &mut [0; 64]));
        }
        head_server_labels(head_at(&self.region, &self.slots, slot, &mut [0; 387]))
    }

    /// Whether the octets of the name of a slot's set have that of `*`.
    pub fn is_starred(&self, slot: u32) -> bool
        requires { IsInUse self.now.slots slot }
        ensures { (kept : Kept) → IsKept self.now.slots slot kept
            → result ≡ is_starred kept.set }
    {
        keys_are_in_front();
        written_reads_back();
        if size_at(&self.region, &self.slots, slot) <= SHORT {
            return head_is_starred(head_at(&self.region, &self.slots, slot, &mut [0; 64]));
        }
        head_is_starred(head_at(&self.region, &self.slots, slot, &mut [0; 387]))
    }

    /// A hash of the name of a slot's set, of which no contract speaks.
    pub fn name_hash(&self, slot: u32) -> u64
        requires { IsInUse self.now.slots slot }
    {
        written_reads_back();
        name_hash_at(&self.region, &self.slots, slot)
    }

    /// How many octets the set of a slot has.
    pub fn size(&self, slot: u32) -> usize
        requires { IsInUse self.now.slots slot }
        ensures { (kept : Kept) → IsKept self.now.slots slot kept
            → result ≡ length (set_octets kept.set) }
    {
        written_reads_back();
        size_at(&self.region, &self.slots, slot)
    }

    /// Whether the set of a slot is an alias.
    pub fn is_alias(&self, slot: u32) -> bool
        requires { IsInUse self.now.slots slot }
        ensures { (kept : Kept) → IsKept self.now.slots slot kept
            → result ≡ is_alias kept.set.body }
    {
        written_reads_back();
        is_alias_at(&self.region, &self.slots, slot)
    }

    /// What decides the health of the set of a slot.
    pub fn watch(&self, slot: u32) -> Watch
        requires { IsInUse self.now.slots slot }
        ensures { (kept : Kept) → IsKept self.now.slots slot kept → result ≡ watch_of kept.set }
    {
        written_reads_back();
        watch_at(&self.region, &self.slots, slot)
    }

    /// The name and the type of the target group of a slot's set, which an alias alone has.
    pub fn target(&self, slot: u32) -> Option<(Name, RType)>
        requires { IsInUse self.now.slots slot }
        ensures { (kept : Kept) → IsKept self.now.slots slot kept → result ≡ target_of kept.set }
    {
        written_reads_back();
        target_at(&self.region, &self.slots, slot)
    }

    /// Holds the set of a slot in a scratch, in place of the set that it held, and takes no memory.
    pub fn hold(&self, slot: u32, into: &mut Scratch)
        requires { IsInUse self.now.slots slot }
        ensures { (kept : Kept) → IsKept self.now.slots slot kept → into.new ≡ Some kept.set }
    {
        written_reads_back();
        hold_at(&self.region, &self.slots, slot, into);
    }

    /// The octets of a slot's set from its policy on, as many as a buffer has room for. The caller
    /// knows the place at which the policy stands: two octets behind the name.
    pub fn policy<'a>(&self, slot: u32, at: usize, buffer: &'a mut [u8]) -> &'a [u8]
        requires { IsInUse self.now.slots slot }
        ensures { (kept : Kept) → IsKept self.now.slots slot kept → PolicyIsAt kept.set at
            → IsPart result.now (take (length buffer.old) (from_policy kept.set)) kept.set }
    {
        written_reads_back();
        part_at(&self.region, &self.slots, slot, at, buffer)
    }

    /// The octets of a slot's set from a place on, up to the end of the 32 among which the place is,
    /// lent.
    pub fn piece(&self, slot: u32, place: usize) -> &[u8]
        requires { IsInUse self.now.slots slot }
        ensures { (kept : Kept) → IsKept self.now.slots slot kept
            → IsPart result.now (set_piece kept.set place) kept.set }
    {
        written_reads_back();
        piece_at(&self.region, &self.slots, slot, place)
    }

    /// The same up to the end of the 32 behind those, in two parts, one behind the other.
    pub fn pieces(&self, slot: u32, place: usize) -> (&[u8], &[u8])
        requires { IsInUse self.now.slots slot }
        ensures { (kept : Kept) → IsKept self.now.slots slot kept
            → IsPart (result.0.now ++ result.1.now) (set_pieces kept.set place) kept.set }
    {
        written_reads_back();
        pieces_at(&self.region, &self.slots, slot, place)
    }

    /// The set of a slot.
    pub fn read(&self, alloc: Global, slot: u32) -> Result<RecordSet, OutOfMemory>
        requires { IsInUse self.now.slots slot }
        ensures { IfOk result (λ set. (kept : Kept) → IsKept self.now.slots slot kept
            → set ≡ kept.set) }
    {
        written_reads_back();
        let octets = octets_at(alloc, &self.region, &self.slots, slot)?;
        set_of(alloc, &octets)
    }
}

/// A hash of the name of a slot's set, which mostly stands where its first octets do.
fn name_hash_at(region: &Region, slots: &Vec<Slot>, slot: u32) -> u64
    requires { (octets : List ℕ) × HoldsAt region.now.held slots.now.items slot octets }
{
    let (name, rest) = name_and_rest(front_at(region, slots, slot));
    if rest.len() > 0 {
        return hash_of(name);
    }
    long_name_hash(region, slots, slot)
}

/// The same of a name of any length.
fn long_name_hash(region: &Region, slots: &Vec<Slot>, slot: u32) -> u64
    requires { (octets : List ℕ) × HoldsAt region.now.held slots.now.items slot octets }
{
    front_hash(head_at(region, slots, slot, &mut [0; 387]))
}

/// A hash of the name with which octets begin.
fn front_hash(octets: &[u8]) -> u64 {
    hash_of(name_and_rest(octets).0)
}

/// A copy of the octets of a slot's set.
fn octets_at(
    alloc: Global,
    region: &Region,
    slots: &Vec<Slot>,
    slot: u32,
) -> Result<Vec<u8>, OutOfMemory>
    requires { (octets : List ℕ) × HoldsAt region.now.held slots.now.items slot octets }
    ensures { IfOk result (λ copy. (octets : List ℕ)
        → HoldsAt region.now.held slots.now.items slot octets → copy.items ≡ octets) }
{
    let mut octets = zeros(alloc, size_at(region, slots, slot))?;
    copy_at(region, slots, slot, octets.as_mut_slice());
    Ok(octets)
}

/// Holds the set of a slot.
fn hold_at(region: &Region, slots: &Vec<Slot>, slot: u32, into: &mut Scratch)
    requires { (octets : List ℕ) × HoldsAt region.now.held slots.now.items slot octets
        × IsSpelling octets }
    ensures { (octets : List ℕ) (set : RecordSet)
        → HoldsAt region.now.held slots.now.items slot octets → Spells octets set
        → into.new ≡ Some set }
{
    into.hold_octets(region, Handle::of(cell_at(slots, slot)));
}

/// The set of these octets.
fn set_of(alloc: Global, octets: &[u8]) -> Result<RecordSet, OutOfMemory>
    requires { IsSpelling octets.now }
    ensures { IfOk result (λ set. (spelled : RecordSet) → Spells octets.now spelled
        → set ≡ spelled) }
{
    match read_set(alloc, octets) {
        Ok((set, _)) => Ok(set),
        Err(ReadFault::OutOfMemory) => Err(OutOfMemory),
        Err(ReadFault::Bad(_)) => unreachable!(),
    }
}

/// How many octets the set of a slot has.
fn size_at(region: &Region, slots: &Vec<Slot>, slot: u32) -> usize
    requires { (octets : List ℕ) × HoldsAt region.now.held slots.now.items slot octets }
    ensures { (octets : List ℕ) → HoldsAt region.now.held slots.now.items slot octets
        → result ≡ length octets }
{
    match region.length(Handle::of(cell_at(slots, slot))) {
        Some(size) => size,
        None => unreachable!(),
    }
}

/// Fills others with the first octets of a slot's set.
fn copy_at(region: &Region, slots: &Vec<Slot>, slot: u32, into: &mut [u8])
    requires { (octets : List ℕ) × HoldsAt region.now.held slots.now.items slot octets
        × (length into.old ≤ length octets) }
    ensures { (octets : List ℕ) → HoldsAt region.now.held slots.now.items slot octets
        → into.new ≡ take (length into.old) octets }
{
    region.read_at(Handle::of(cell_at(slots, slot)), 0, into);
}

/// The first octets of a slot's set, lent: 32 of them, or all where they are fewer.
pub(crate) fn front_at<'a>(region: &'a Region, slots: &Vec<Slot>, slot: u32) -> &'a [u8]
    requires { (octets : List ℕ) × HoldsAt region.now.held slots.now.items slot octets }
    ensures { (octets : List ℕ) → HoldsAt region.now.held slots.now.items slot octets
        → result.now ≡ take 32 octets }
{
    region.front(Handle::of(cell_at(slots, slot)))
}

/// The same by the cell in which they begin.
#[inline(always)]
pub(crate) fn front_from<'a>(
    region: &'a Region,
    slots: &Vec<Slot>,
    slot: u32,
    cell: u32,
) -> &'a [u8]
    requires holds { (octets : List ℕ) × HoldsAt region.now.held slots.now.items slot octets }
    requires cell { (own : Slot) → slice_get slots.now.items slot ≡ Some own → own.cell ≡ cell }
    ensures { (octets : List ℕ) → HoldsAt region.now.held slots.now.items slot octets
        → result.now ≡ take 32 octets }
{
    region.front(Handle::of(cell))
}

/// The octets of a slot's set from a place on, up to the end of the 32 among which the place is.
#[inline(always)]
fn piece_at<'a>(region: &'a Region, slots: &Vec<Slot>, slot: u32, place: usize) -> &'a [u8]
    requires { (octets : List ℕ) × HoldsAt region.now.held slots.now.items slot octets }
    ensures { (octets : List ℕ) → HoldsAt region.now.held slots.now.items slot octets
        → result.now ≡ take (32 - place % 32) (drop place octets) }
{
    region.piece(Handle::of(cell_at(slots, slot)), place)
}

/// The same up to the end of the 32 behind those, in two parts, one behind the other.
#[inline(always)]
fn pieces_at<'a>(
    region: &'a Region,
    slots: &Vec<Slot>,
    slot: u32,
    place: usize,
) -> (&'a [u8], &'a [u8])
    requires { (octets : List ℕ) × HoldsAt region.now.held slots.now.items slot octets }
    ensures { (octets : List ℕ) → HoldsAt region.now.held slots.now.items slot octets
        → result.0.now ++ result.1.now ≡ take (64 - place % 32) (drop place octets) }
{
    region.pieces(Handle::of(cell_at(slots, slot)), place)
}

/// Whether the octets of a slot's set go on with others from a place on.
pub(crate) fn stands_at(
    region: &Region,
    slots: &Vec<Slot>,
    slot: u32,
    offset: usize,
    octets: &[u8],
) -> bool
    requires { (octets : List ℕ) × HoldsAt region.now.held slots.now.items slot octets }
    ensures { (known : List ℕ) → HoldsAt region.now.held slots.now.items slot known
        → IsTrue result ↔ (take (length octets.now) (drop offset known) ≡ octets.now) }
{
    region.is_at(Handle::of(cell_at(slots, slot)), offset, octets)
}

/// The two octets of a slot's set from a place on.
pub(crate) fn two_at(region: &Region, slots: &Vec<Slot>, slot: u32, offset: usize) -> [u8; 2]
    requires { (octets : List ℕ) × HoldsAt region.now.held slots.now.items slot octets
        × (offset + 2 ≤ length octets) }
    ensures { (octets : List ℕ) → HoldsAt region.now.held slots.now.items slot octets
        → result ≡ take 2 (drop offset octets) }
{
    let mut two = [0; 2];
    region.read_at(Handle::of(cell_at(slots, slot)), offset, &mut two);
    two
}

/// The octets of a slot's set from a place on, as many as a buffer has room for.
fn part_at<'a>(
    region: &Region,
    slots: &Vec<Slot>,
    slot: u32,
    offset: usize,
    buffer: &'a mut [u8],
) -> &'a [u8]
    requires { (octets : List ℕ) × HoldsAt region.now.held slots.now.items slot octets }
    ensures { (octets : List ℕ) → HoldsAt region.now.held slots.now.items slot octets
        → result.now ≡ take (length buffer.old) (drop offset octets) }
{
    let size = size_at(region, slots, slot);
    if offset > size {
        return front(buffer, 0);
    }
    let count = (size - offset).min(buffer.len());
    copy_part(region, slots, slot, offset, &mut buffer[..count]);
    front(buffer, count)
}

/// Fills others with the octets of a slot's set from a place on.
fn copy_part(region: &Region, slots: &Vec<Slot>, slot: u32, offset: usize, into: &mut [u8])
    requires { (octets : List ℕ) × HoldsAt region.now.held slots.now.items slot octets
        × (offset + length into.old ≤ length octets) }
    ensures { (octets : List ℕ) → HoldsAt region.now.held slots.now.items slot octets
        → into.new ≡ take (length into.old) (drop offset octets) }
{
    region.read_at(Handle::of(cell_at(slots, slot)), offset, into);
}

/// The first octets of a slot's set, as many as a buffer has room for.
fn head_at<'a>(region: &Region, slots: &Vec<Slot>, slot: u32, buffer: &'a mut [u8]) -> &'a [u8]
    requires { (octets : List ℕ) × HoldsAt region.now.held slots.now.items slot octets }
    ensures { (octets : List ℕ) → HoldsAt region.now.held slots.now.items slot octets
        → result.now ≡ take (min (length octets) (length buffer.old)) octets }
{
    let count = size_at(region, slots, slot).min(buffer.len());
    copy_at(region, slots, slot, &mut buffer[..count]);
    front(buffer, count)
}

/// Room for the octets of any set.
fn room_in(room: &mut [u8; 65536]) -> &mut [u8]
    ensures { length result.now ≡ most_octets }
{
    room
}

/// All octets of a slot's set, in a buffer that has room for them.
fn whole_at<'a>(region: &Region, slots: &Vec<Slot>, slot: u32, buffer: &'a mut [u8]) -> &'a [u8]
    requires { (octets : List ℕ) × HoldsAt region.now.held slots.now.items slot octets
        × (length octets ≤ length buffer.old) }
    ensures { (octets : List ℕ) → HoldsAt region.now.held slots.now.items slot octets
        → result.now ≡ octets }
{
    head_at(region, slots, slot, buffer)
}

/// Whether the set of a slot is an alias.
fn is_alias_at(region: &Region, slots: &Vec<Slot>, slot: u32) -> bool
    requires { (octets : List ℕ) × HoldsAt region.now.held slots.now.items slot octets
        × IsSpelling octets }
    ensures { (octets : List ℕ) (set : RecordSet)
        → HoldsAt region.now.held slots.now.items slot octets → Spells octets set
        → result ≡ is_alias set.body }
{
    if size_at(region, slots, slot) <= FEW {
        return is_alias_in(whole_at(region, slots, slot, &mut [0; 128]));
    }
    is_long_alias(region, slots, slot)
}

/// The same of a set of any size.
fn is_long_alias(region: &Region, slots: &Vec<Slot>, slot: u32) -> bool
    requires { (octets : List ℕ) × HoldsAt region.now.held slots.now.items slot octets
        × IsSpelling octets }
    ensures { (octets : List ℕ) (set : RecordSet)
        → HoldsAt region.now.held slots.now.items slot octets → Spells octets set
        → result ≡ is_alias set.body }
{
    is_alias_in(whole_at(region, slots, slot, room_in(&mut [0; 65536])))
}

/// What decides the health of a slot's set.
fn watch_at(region: &Region, slots: &Vec<Slot>, slot: u32) -> Watch
    requires { (octets : List ℕ) × HoldsAt region.now.held slots.now.items slot octets
        × IsSpelling octets }
    ensures { (octets : List ℕ) (set : RecordSet)
        → HoldsAt region.now.held slots.now.items slot octets → Spells octets set
        → result ≡ watch_of set }
{
    if size_at(region, slots, slot) <= FEW {
        return watch_in(whole_at(region, slots, slot, &mut [0; 128]));
    }
    long_watch(region, slots, slot)
}

/// The same of a set of any size.
fn long_watch(region: &Region, slots: &Vec<Slot>, slot: u32) -> Watch
    requires { (octets : List ℕ) × HoldsAt region.now.held slots.now.items slot octets
        × IsSpelling octets }
    ensures { (octets : List ℕ) (set : RecordSet)
        → HoldsAt region.now.held slots.now.items slot octets → Spells octets set
        → result ≡ watch_of set }
{
    watch_in(whole_at(region, slots, slot, room_in(&mut [0; 65536])))
}

/// The target group of a slot's set, which an alias alone has.
fn target_at(region: &Region, slots: &Vec<Slot>, slot: u32) -> Option<(Name, RType)>
    requires { (octets : List ℕ) × HoldsAt region.now.held slots.now.items slot octets
        × IsSpelling octets }
    ensures { (octets : List ℕ) (set : RecordSet)
        → HoldsAt region.now.held slots.now.items slot octets → Spells octets set
        → result ≡ target_of set }
{
    if size_at(region, slots, slot) <= FEW {
        return target_in(whole_at(region, slots, slot, &mut [0; 128]));
    }
    long_target(region, slots, slot)
}

/// The same of a set of any size.
fn long_target(region: &Region, slots: &Vec<Slot>, slot: u32) -> Option<(Name, RType)>
    requires { (octets : List ℕ) × HoldsAt region.now.held slots.now.items slot octets
        × IsSpelling octets }
    ensures { (octets : List ℕ) (set : RecordSet)
        → HoldsAt region.now.held slots.now.items slot octets → Spells octets set
        → result ≡ target_of set }
{
    target_in(whole_at(region, slots, slot, room_in(&mut [0; 65536])))
}
