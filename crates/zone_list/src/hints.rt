//! Where the sets of a name may stand, told by a hash of the name.
//!
//! A hint is tried and never trusted: no contract speaks of what the table holds, so nothing has to
//! be mended where sets come and go. A name that comes is entered at its place, what it moves is
//! counted part by part, and the table is made anew once entries are wrong by too much. Where that is
//! put off, it is made anew only once a sixteenth of the sets gave way or went, which pays for it.

ghost use Rattle.zone_changes.specs.Orders.{IsOrder};

use crate::apexes::NamedZone;
use crate::shifts::Shifts;
use crate::waymarks::Waymarks;
use octets::{behind, front, put_at};
use std::alloc::Global;
use zone_changes::{NO_CELL, SetSlots, hash_of};

/// An entry that tells nothing.
const NOTHING: u32 = 0xffff_ffff;

/// How many entries in a row are tried.
const TRIES: usize = 16;

/// What a table tells of a name: the place of the first set of that name, and the cell in which its
/// octets begin.
#[derive(Clone, Copy)]
pub struct Hint {
    pub place: usize,
    pub cell: u32,
}

/// An entry of a table.
#[derive(Clone, Copy)]
struct Entry {
    /// In the high eight bits those of a hash, and in the low 24 the place of the first set of that
    /// name; or that the entry tells nothing.
    word: u32,
    /// The cell in which the set's octets begin.
    cell: u32,
}

/// An entry that tells nothing.
const EMPTY: Entry = Entry {
    word: NOTHING,
    cell: NO_CELL,
};

/// A flat table.
#[derive(Drop)]
pub struct Hints {
    entries: Vec<Entry>,
    /// By how many places sets moved since the table was made, all of them together, but for those
    /// that came.
    moved: usize,
    /// How many sets came in front of each part of the zone since then.
    shifts: Shifts,
    /// How many sets came in front of others.
    came: usize,
    /// How many sets that were there gave way or went.
    changed: usize,
    /// Where names may stand that have no entry.
    waymarks: Waymarks,
}

impl Hints {
    /// A table without entries.
    pub fn new(alloc: Global) -> Hints {
        Hints {
            entries: Vec::new(alloc),
            moved: 0,
            came: 0,
            shifts: Shifts::new(0),
            changed: 0,
            waymarks: Waymarks::new(alloc),
        }
    }

    /// The place that is told of a name's octets.
    pub fn place(&self, name: &[u8]) -> Option<usize> {
        match self.find(name) {
            Some(hint) => Some(hint.place),
            None => None,
        }
    }

    /// What is told of a name's octets.
    pub fn find(&self, name: &[u8]) -> Option<Hint> {
        if self.entries.len() == 0 || self.moved == usize::MAX {
            return None;
        }
        let hash = hash_of(name);
        let start = start_of(hash, self.entries.len());
        for step in 0..TRIES {
            match self.entries.get(start.wrapping_add(step)) {
                None => return None,
                Some(entry) => {
                    if entry.word == NOTHING {
                        return None;
                    }
                    if entry.word >> 24 == tag_of(hash) {
                        return Some(Hint {
                            place: self.shifts.now((entry.word & 0xff_ffff) as usize),
                            cell: entry.cell,
                        });
                    }
                }
            }
        }
        None
    }

    /// The place that is told of the name above this one, or of the wildcard below that: mostly this
    /// one would stand right behind. Nothing is told of names right below one of so many octets, as
    /// the apex has: the sets of a whole zone would be between.
    #[inline(never)]
    pub fn find_above(&self, name: &[u8], apex: usize) -> Option<usize> {
        let above = above(name);
        if above.len() <= apex {
            return None;
        }
        if let Some(place) = self.place(above) {
            return Some(place);
        }
        let mut wildcard = [0; 255];
        wildcard[0] = 1;
        wildcard[1] = b'*';
        if above.len() > 253 {
            return None;
        }
        put_at(&mut wildcard, 2, above);
        self.place(front(&wildcard, 2 + above.len()))
    }

    /// The place near which a name stands among others.
    #[inline(never)]
    pub fn find_beside(&self, name: &[u8]) -> Option<usize> {
        match self.waymarks.place(name) {
            Some(place) => Some(self.shifts.now(place)),
            None => None,
        }
    }

    /// Makes the table larger where so many places would leave less than a fifth of it free: by nine
    /// sixteenths more entries than places. It stays as it is where there is no memory.
    pub fn grow(&mut self, places: usize) {
        self.waymarks.grow(places);
        let size = self.entries.len();
        if places <= size - size / 5 {
            return;
        }
        let spare = places / 2 + places / 16;
        let more = places.saturating_add(spare).saturating_add(TRIES) - size;
        if self.entries.reserve_exact(more).is_err() {
            return;
        }
        for _ in 0..more {
            if self.entries.push(EMPTY).is_err() {
                return;
            }
        }
        if size > 0 {
            self.moved = usize::MAX;
        }
    }

    /// Tells that a set came to a place, the cell in which its octets begin, and how many sets stand
    /// behind it now. Its name is entered, unless the table has to be made anew.
    pub fn came(&mut self, name: &[u8], place: usize, cell: u32, behind: usize) {
        if behind > 0 && self.came == 0 {
            self.shifts = Shifts::new(place.saturating_add(behind));
        }
        let then = self.shifts.then(place);
        if behind > 0 {
            self.came = self.came.saturating_add(1);
            self.shifts.came(then);
        }
        if !self.is_old(place.saturating_add(behind)) {
            put(
                &mut self.entries,
                hash_of(name),
                (then % 0x100_0000) as u32,
                cell,
            );
        }
    }

    /// Tells that a set of a name gave way to one of its key, whose octets begin in this cell.
    pub fn gave_way(&mut self, name: &[u8], cell: u32) {
        move_to(&mut self.entries, hash_of(name), cell);
        self.changed = self.changed.saturating_add(1);
    }

    /// Tells that so many sets went, of so many.
    pub fn went(&mut self, gone: usize, sets: usize) {
        self.moved = self.moved.saturating_add(gone.saturating_mul(sets / 2));
        self.changed = self.changed.saturating_add(gone);
    }

    /// Makes the table anew where its entries are wrong by too much; where that is put off, only if
    /// sets that were there were changed, as many as a sixteenth of all. The apex has so many octets.
    pub fn settle(&mut self, store: &SetSlots, zone: u32, order: &[u32], apex: usize, put_off: bool)
        requires { IsOrder store.now.slots zone order.now }
    {
        if !self.is_old(order.len()) {
            self.mark(store, zone, order, apex, put_off);
            return;
        }
        if put_off && self.changed <= order.len() / 16 {
            return;
        }
        clear(&mut self.entries);
        fill(&mut self.entries, store, zone, order);
        self.moved = 0;
        self.came = 0;
        self.shifts = Shifts::new(0);
        self.changed = 0;
        self.waymarks.make(store, zone, order, apex);
    }

    /// Takes words of the sets where there are few, and no set came in front of others since the table
    /// was made.
    fn mark(&mut self, store: &SetSlots, zone: u32, order: &[u32], apex: usize, put_off: bool)
        requires { IsOrder store.now.slots zone order.now }
    {
        if put_off || self.came > 0 || !self.waymarks.are_few(order.len()) {
            return;
        }
        self.waymarks.make(store, zone, order, apex);
    }

    /// Whether entries of so many sets are wrong by too much: an eighth of the sets came in front of
    /// others, or sets went that moved all, in the mean, by more than a thirty-second of them.
    fn is_old(&self, sets: usize) -> bool {
        self.came > sets / 8 || self.moved / sets.max(1) > sets / 32
    }

    /// Tells that the name of a zone came or went, and makes the table anew where these are many: of
    /// fewer than 1,024 zones each time, since all places behind such a name are wrong.
    pub fn refresh_names(&mut self, list: &[NamedZone]) {
        self.moved = self.moved.saturating_add(1);
        if self.moved > list.len() / 1_024 {
            clear(&mut self.entries);
            fill_names(&mut self.entries, list);
            self.moved = 0;
        }
    }
}

/// The octets behind the first label, where there are as many.
fn above(name: &[u8]) -> &[u8] {
    match name {
        [size, ..] => {
            let first = *size as usize + 1;
            if first > name.len() {
                return name;
            }
            behind(name, first)
        }
        [] => name,
    }
}

/// Takes all entries away.
fn clear(entries: &mut Vec<Entry>) {
    for entry in entries.iter_mut() {
        *entry = EMPTY;
    }
}

/// Puts an entry for each name of the sets in these slots.
fn fill(entries: &mut Vec<Entry>, store: &SetSlots, zone: u32, order: &[u32])
    requires { IsOrder store.now.slots zone order.now }
{
    let mut place: u32 = 0;
    for slot in order {
        put(entries, store.name_hash(*slot), place, store.cell_of(*slot));
        place = place.wrapping_add(1);
    }
}

/// Puts an entry for each of these names.
fn fill_names(entries: &mut Vec<Entry>, list: &[NamedZone]) {
    let mut place: u32 = 0;
    for apex in list {
        put(entries, hash_of(apex.name.octets()), place, NO_CELL);
        place = place.wrapping_add(1);
    }
}

/// Puts a place and a cell into the first free entry, unless one tells of the same hash.
fn put(entries: &mut Vec<Entry>, hash: u64, place: u32, cell: u32) {
    let start = start_of(hash, entries.len());
    for step in 0..TRIES {
        match entries.get_mut(start.wrapping_add(step)) {
            None => return,
            Some(entry) => {
                if entry.word == NOTHING {
                    *entry = Entry {
                        word: (tag_of(hash) << 24) | (place & 0xff_ffff),
                        cell,
                    };
                    return;
                }
                if entry.word >> 24 == tag_of(hash) {
                    return;
                }
            }
        }
    }
}

/// Has the entry that tells of a hash tell of another cell.
fn move_to(entries: &mut Vec<Entry>, hash: u64, cell: u32) {
    let start = start_of(hash, entries.len());
    for step in 0..TRIES {
        match entries.get_mut(start.wrapping_add(step)) {
            None => return,
            Some(entry) => {
                if entry.word == NOTHING {
                    return;
                }
                if entry.word >> 24 == tag_of(hash) {
                    entry.cell = cell;
                    return;
                }
            }
        }
    }
}

/// The entry at which a hash is looked for first: one with as many behind it as are tried.
fn start_of(hash: u64, size: usize) -> usize {
    ((hash >> 32) as usize).wrapping_mul(size.saturating_sub(TRIES - 1)) >> 32
}

/// The bits of a hash that an entry has.
fn tag_of(hash: u64) -> u32 {
    ((hash >> 24) & 0xff) as u32
}
