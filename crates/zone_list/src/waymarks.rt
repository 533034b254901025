//! Where a name may stand that has no hint of its own, told by words of sets in zone order.
//!
//! A word is taken of each eighth set: octets of the label right below the apex, behind those with
//! which all of these labels begin. As hints they are tried and never trusted, and nothing has to be
//! mended where sets come and go.

ghost use Rattle.std.specs.Prelude.{◌<◌, ◌+◌, length};
ghost use Rattle.zone_changes.specs.Orders.{IsOrder};

use octets::{behind, front, long_at};
use std::alloc::Global;
use zone_changes::SetSlots;

/// How many sets there are from one word to the next.
const STEP: usize = 8;

/// The most octets of a label.
const MOST: usize = 63;

/// Words of a zone.
#[derive(Drop)]
pub struct Waymarks {
    words: Vec<u64>,
    /// How many octets the name of the apex has.
    apex: usize,
    /// The word of a label that has one.
    begins: u64,
    /// How many octets are the same at the front of these labels.
    common: usize,
}

impl Waymarks {
    /// None.
    pub fn new(alloc: Global) -> Waymarks {
        Waymarks {
            words: Vec::new(alloc),
            apex: 0,
            begins: 0,
            common: 0,
        }
    }

    /// Makes room for the words of so many sets, and for a quarter more. It stays as it is where there
    /// is no memory.
    pub fn grow(&mut self, sets: usize) {
        let words = sets / STEP + 1;
        if words <= self.words.capacity() {
            return;
        }
        let ample = words + words / 4;
        if self
            .words
            .reserve_exact(ample.saturating_sub(self.words.len()))
            .is_err()
        {
            return;
        }
    }

    /// Whether there are words of less than half of so many sets.
    pub fn are_few(&self, sets: usize) -> bool {
        sets / STEP / 2 > self.words.len()
    }

    /// Takes the words of the sets in these slots, below an apex of so many octets, as many as there is
    /// room for.
    pub fn make(&mut self, store: &SetSlots, zone: u32, order: &[u32], apex: usize)
        requires { IsOrder store.now.slots zone order.now }
    {
        let (begins, common) = beginning_of(store, zone, order, apex);
        self.apex = apex;
        self.begins = begins;
        self.common = common;
        fill(&mut self.words, store, zone, order, apex, common);
    }

    /// The place that is told of the octets of a name below the apex: that of the last set whose word is
    /// lower, or some sets behind.
    pub fn place(&self, name: &[u8]) -> Option<usize> {
        if self.words.len() == 0 {
            return None;
        }
        let label = label_below(name, self.apex);
        if self.common > 0 {
            let shift = 64u32.saturating_sub(8 * self.common.min(8) as u32);
            let own = word_of(label, 0).wrapping_shr(shift);
            let others = self.begins.wrapping_shr(shift);
            if own < others {
                return Some(0);
            }
            if own > others {
                return Some(self.words.len().saturating_mul(STEP));
            }
        }
        let marks = count_below(&self.words, word_of(label, self.common));
        Some(marks.saturating_mul(STEP).saturating_sub(STEP / 2))
    }
}

/// Takes the words.
fn fill(
    words: &mut Vec<u64>,
    store: &SetSlots,
    zone: u32,
    order: &[u32],
    apex: usize,
    common: usize,
)
    requires { IsOrder store.now.slots zone order.now }
{
    words.clear();
    let mut place: usize = 0;
    for slot in order {
        if place % STEP == 0 {
            let word = word_of(label_in(store.piece(*slot, 0), apex), common);
            push_within(words, word);
        }
        place = place.wrapping_add(1);
    }
}

/// Puts a word behind others, where there is room.
fn push_within(words: &mut Vec<u64>, word: u64) {
    if words.len() < words.capacity() {
        words.push_reserved(word);
    }
}

/// The word of the first label that is asked for a word, and how many octets all of them begin with.
fn beginning_of(store: &SetSlots, zone: u32, order: &[u32], apex: usize) -> (u64, usize)
    requires { IsOrder store.now.slots zone order.now }
{
    let mut first: &[u8] = &[];
    let mut common = MOST;
    let mut place: usize = 0;
    for slot in order {
        if place % STEP == 0 {
            let label = label_in(store.piece(*slot, 0), apex);
            if first.len() == 0 {
                first = label;
            }
            if label.len() > 0 {
                common = alike(first, label, common);
            }
        }
        place = place.wrapping_add(1);
    }
    (word_of(first, 0), common)
}

/// How many octets two labels begin with that are the same, and so many at most.
fn alike(label: &[u8], other: &[u8], most: usize) -> usize {
    for at in 0..most {
        if label.get(at) != other.get(at) {
            return at;
        }
        if at >= label.len() {
            return at;
        }
    }
    most
}

/// How many words are lower than one, where they rise.
fn count_below(words: &[u64], word: u64) -> usize {
    let mut low = 0;
    let mut high = words.len();
    for _ in 0..64 {
        if low >= high {
            return low;
        }
        let middle = low + (high - low) / 2;
        match words.get(middle) {
            None => return low,
            Some(found) => {
                if *found < word {
                    low = middle.wrapping_add(1);
                } else {
                    high = middle;
                }
            }
        }
    }
    low
}

/// Eight octets of a label from a place on, as a number; where there are fewer, zeros stand behind
/// them.
fn word_of(label: &[u8], from: usize) -> u64 {
    if from >= label.len() {
        return 0;
    }
    let rest = behind(label, from);
    if rest.len() >= 8 {
        return (u64::from(long_at(rest, 0)) << 32) | u64::from(long_at(rest, 4));
    }
    let mut word: u64 = 0;
    for octet in rest {
        word = (word << 8) | u64::from(*octet);
    }
    word.wrapping_shl(64u32.saturating_sub(8 * rest.len() as u32))
}

/// The label of a set right below an apex of so many octets, from octets of the set that begin with
/// those of its name; or its first label where they don't hold all of it.
fn label_in(octets: &[u8], apex: usize) -> &[u8] {
    match name_in(octets) {
        Some(name) => label_below(name, apex),
        None => label_at(octets),
    }
}

/// The name with which octets begin, where it ends there.
fn name_in(octets: &[u8]) -> Option<&[u8]> {
    let mut at: usize = 0;
    for _ in 0..octets.len() {
        match octets.get(at) {
            None => return None,
            Some(size) => {
                if *size == 0 {
                    return Some(front(octets, at + 1));
                }
                at = at.wrapping_add(*size as usize).wrapping_add(1);
            }
        }
    }
    None
}

/// The label of a name right below an apex of so many octets.
fn label_below(name: &[u8], apex: usize) -> &[u8] {
    if name.len() <= apex {
        return &[];
    }
    let mut rest = name;
    for _ in 0..128 {
        let label = label_at(rest);
        let next = label.len() + 1;
        if next >= rest.len() {
            return label;
        }
        if rest.len() - next <= apex {
            return label;
        }
        rest = behind(rest, next);
    }
    &[]
}

/// The first label of octets that begin with a name, where they hold all of it.
fn label_at(octets: &[u8]) -> &[u8]
    ensures { length result.now < length octets.now + 1 }
{
    match octets {
        [size, ..] => {
            let end = *size as usize + 1;
            if end > octets.len() {
                return &[];
            }
            &octets[1..end]
        }
        [] => &[],
    }
}
