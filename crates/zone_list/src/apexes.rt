//! The zone of a name, found among the names of all zones.
//!
//! These stand in zone order, so that all names below one stand together behind it.

ghost use Rattle.std.specs.Prelude.{◌≡◌, ◌≢◌, ◌≤◌, ◌<◌, ◌-◌, ℕ, List, [], length, None, Some};
ghost use Rattle.std.specs.Prelude.{IfSome, IsTrue, ◌↔◌, slice_get, vec_capacity};
ghost use Rattle.std.specs.List.{insert};
ghost use Rattle.zone_changes.specs.Suffix.{EndsWith};
ghost use Rattle.zone_list.specs.Apexes.{AreInOrder, Comes, FindsNumber, Goes, IsLongestName};
ghost use Rattle.zone_list.specs.Apexes.{IsParted, IsWith, IsWithout, LongestName, LongestOrNot};
ghost use Rattle.zone_list.specs.declared.apexes.NamedZone.{NamedZone};

use crate::hints::Hints;
use octets::{OutOfMemory, behind};
use std::alloc::Global;
use std::marker::Model;
use zone_changes::Name;

/// The number of a zone, and its name.
#[derive(Clone, Copy)]
pub struct NamedZone {
    /// The number.
    pub id: u32,
    /// The name of the apex.
    pub name: Name,
}

/// The numbers and names of zones. Contracts see them in zone order, or None where a zone came for
/// which there was no room.
#[derive(Drop)]
pub struct Apexes {
    list: Vec<NamedZone>,
    /// Where a name may stand.
    hints: Hints,
    /// How many octets the longest name had that came.
    most: usize,
    /// Whether a zone came for which there was no room.
    is_lost: bool,
}

impl Model for Apexes {
    ghost use Rattle.std.specs.Prelude.{List, Option, None, Some, if◌then◌else◌};
    ghost use Rattle.zone_list.specs.Apexes.{AreInOrder};
    ghost use Rattle.zone_list.specs.declared.apexes.NamedZone.{NamedZone};

    ghost Value = { Option (List NamedZone) };

    ghost view = { λ a. if a.is_lost then None else Some a.list.items };

    ghost invariant = { λ a. AreInOrder a.list.items };
}

impl Apexes {
    /// None.
    pub fn new(alloc: Global) -> Apexes
        ensures { result ≡ Some [] }
    {
        Apexes {
            list: Vec::new(alloc),
            hints: Hints::new(alloc),
            most: 0,
            is_lost: false,
        }
    }

    /// Whether they are known.
    pub fn is_known(&self) -> bool
        ensures { IsTrue result ↔ (self.now ≢ None) }
    {
        !self.is_lost
    }

    /// Makes room for one more.
    pub fn reserve(&mut self) -> Result<(), OutOfMemory>
        ensures { self.new ≡ self.old }
    {
        self.list.reserve(1)?;
        self.hints.grow(self.list.len().saturating_add(1));
        Ok(())
    }

    /// A zone comes.
    pub fn come(&mut self, id: u32, name: &Name)
        ensures { Comes self.old (record { id = id; name = name.now }) self.new }
    {
        if !put(&mut self.list, id, name) {
            self.is_lost = true;
        }
        self.most = self.most.max(name.octets().len());
        self.hints.refresh_names(&self.list);
    }

    /// The zone of a number goes.
    pub fn go(&mut self, id: u32)
        ensures { Goes self.old id self.new }
    {
        take(&mut self.list, id);
        self.hints.refresh_names(&self.list);
    }

    /// The number of the zone of the longest name at or above this one.
    pub fn longest(&self, name: &Name) -> Option<u32>
        ensures { (list : List NamedZone) → self.now ≡ Some list → LongestName list name.now result }
    {
        longest_in(
            &self.list,
            name,
            hint_of(&self.hints, &self.list, name, self.most),
        )
    }
}

/// The place of the longest name at or above this one that a hint tells, where none has more than so
/// many octets: it may be another place. Of one name alone it is known.
fn hint_of(hints: &Hints, list: &[NamedZone], name: &Name, most: usize) -> Option<usize> {
    if list.len() == 1 {
        return Some(0);
    }
    let octets = name.octets();
    let mut at = 0;
    while at < octets.len() {
        let rest = behind(octets, at);
        if let Some(place) = place_of_name(hints, list, rest, most) {
            return Some(place);
        }
        at += octets[at] as usize + 1;
    }
    None
}

/// The place at which the name of these octets stands, where a hint tells it and none has more than
/// so many octets.
fn place_of_name(hints: &Hints, list: &[NamedZone], octets: &[u8], most: usize) -> Option<usize> {
    if octets.len() > most {
        return None;
    }
    let place = hints.place(octets)?;
    if !is_at(list, place, octets) {
        return None;
    }
    Some(place)
}

/// Whether the name of these octets stands at a place.
fn is_at(list: &[NamedZone], place: usize, octets: &[u8]) -> bool {
    match list.get(place) {
        Some(apex) => apex.name.octets() == octets,
        None => false,
    }
}

/// The longest of the names at or above one, which may stand at the place of a hint.
fn longest_in(list: &[NamedZone], name: &Name, hint: Option<usize>) -> Option<u32>
    requires { AreInOrder list.now }
    ensures { LongestName list.now name.now result }
{
    if let Some(place) = hint {
        if let Some(id) = last_above(list, name, place) {
            return Some(id);
        }
    }
    climb(list, name)
}

/// The number at a place, where its name is at or above one and no name of the list is below it.
fn last_above(list: &[NamedZone], name: &Name, place: usize) -> Option<u32>
    requires { AreInOrder list.now }
    ensures { IfSome result (λ id. IsLongestName list.now name.now id) }
{
    if place >= list.len() {
        return None;
    }
    let apex = &list[place];
    if !name.ends_with(&apex.name) {
        return None;
    }
    if has_below(list, &apex.name, place + 1) {
        return None;
    }
    Some(apex.id)
}

/// Whether a name at or below one stands at a place.
fn has_below(list: &[NamedZone], name: &Name, place: usize) -> bool
    ensures { (apex : NamedZone) → slice_get list.now place ≡ Some apex
        → IsTrue result ↔ EndsWith apex.name name.now }
{
    if place >= list.len() {
        return false;
    }
    list[place].name.ends_with(name)
}

/// The longest of the names at or above one, looked for from that name upwards.
fn climb(list: &[NamedZone], name: &Name) -> Option<u32>
    requires { AreInOrder list.now }
    ensures { LongestName list.now name.now result }
{
    if let Some(id) = nearest(list, name) {
        return Some(id);
    }
    let mut rest = *name;
    while let Some(parent) = rest.parent() {
        rest = parent;
        if let Some(id) = nearest(list, &rest) {
            return Some(id);
        }
    }
    None
}

/// The number of the last name that isn't behind one, where it is at or above that.
fn nearest(list: &[NamedZone], name: &Name) -> Option<u32>
    requires { AreInOrder list.now }
    ensures { LongestOrNot list.now name.now result }
{
    let count = count_to(list, name);
    if count == 0 {
        return None;
    }
    let apex = &list[count - 1];
    if !name.ends_with(&apex.name) {
        return None;
    }
    Some(apex.id)
}

/// How many names are one or come before it.
fn count_to(list: &[NamedZone], name: &Name) -> usize
    requires { AreInOrder list.now }
    ensures { IsParted list.now name.now result result }
{
    let mut low = 0;
    let mut high = list.len();
    while low < high {
        let (next_low, next_high) = halve(list, name, low, high);
        low = next_low;
        high = next_high;
    }
    low
}

/// Looks at the name in the middle between two places.
fn halve(list: &[NamedZone], name: &Name, low: usize, high: usize) -> (usize, usize)
    requires order { AreInOrder list.now }
    requires parted { IsParted list.now name.now low high }
    requires apart { low < high }
    ensures parted { IsParted list.now name.now result.0 result.1 }
    ensures nearer { result.1 - result.0 < high - low }
{
    let middle = low + (high - low) / 2;
    if list[middle].name.cmp(name).is_gt() {
        return (low, middle);
    }
    (middle + 1, high)
}

/// Puts a name at its place. `false` where it is there, or there is no room.
fn put(list: &mut Vec<NamedZone>, id: u32, name: &Name) -> bool
    requires { AreInOrder list.old.items }
    ensures order { AreInOrder list.new.items }
    ensures put { IsTrue result
        → IsWith list.old.items (record { id = id; name = name.now }) list.new.items }
{
    if list.len() >= list.capacity() {
        return false;
    }
    let place = count_to(list, name);
    if is_named(list, name, place) {
        return false;
    }
    insert_at(list, place, NamedZone { id, name: *name });
    true
}

/// Whether a name is the one in front of a place.
fn is_named(list: &[NamedZone], name: &Name, place: usize) -> bool
    requires { place ≤ length list.now }
    ensures { (apex : NamedZone) → 0 < place → slice_get list.now (place - 1) ≡ Some apex
        → IsTrue result ↔ (apex.name ≡ name.now) }
{
    if place == 0 {
        return false;
    }
    list[place - 1].name.is_same(name)
}

/// Puts one before a place.
fn insert_at(list: &mut Vec<NamedZone>, place: usize, apex: NamedZone)
    requires place { place ≤ length list.old.items }
    requires room { length list.old.items < vec_capacity list.old }
    ensures { list.new.items ≡ insert list.old.items place apex }
{
    match list.insert(place, apex) {
        Ok(()) => {}
        Err(_) => unreachable!(),
    }
}

/// Takes the name of a number away.
fn take(list: &mut Vec<NamedZone>, id: u32)
    requires { AreInOrder list.old.items }
    ensures order { AreInOrder list.new.items }
    ensures without { IsWithout list.old.items id list.new.items }
{
    while let Some(place) = place_of(list, id) {
        list.remove(place);
    }
}

/// The place of the zone of a number.
fn place_of(list: &[NamedZone], id: u32) -> Option<usize>
    ensures { FindsNumber list.now id result }
{
    for place in 0..list.len() {
        if list[place].id == id {
            return Some(place);
        }
    }
    None
}
