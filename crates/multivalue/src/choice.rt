//! The considered sets in cyclic order, and the eight from where a word points.

ghost use Rattle.std.specs.Prelude.{◌≡◌, ◌≤◌, ◌<◌, ◌||◌, length, take, map, if◌then◌else◌};
ghost use Rattle.considered_sets.specs.Considered.{places_from};
ghost use Rattle.multivalue.specs.Choice.{chosen, cyclic_from};
ghost use Rattle.multivalue.specs.Answer.{picked};

use considered_sets::some_healthy;

/// The most sets that are chosen.
const MOST: usize = 8;

/// The most sets of a group.
const GROUP: usize = 100;

/// Chosen sets, by their places in the group.
#[derive(Clone, Copy, Debug, PartialEq, Eq)]
pub struct Picked {
    /// The places in the order of the choice, and 0 behind the first `count`.
    pub places: [usize; 8],
    pub count: usize,
}

/// Chooses at most eight sets of a multivalue answer group by a random word.
///
/// The healthy sets are considered, or all where none is healthy. Where these are more than eight,
/// the choice is eight consecutive ones in cyclic order from place `word mod count` on.
pub fn choose(healthy: &[bool], word: u64) -> Picked
    requires some { 1 ≤ length healthy.now }
    requires most { length healthy.now ≤ 100 }
    ensures { result ≡ picked (chosen healthy.now word) }
{
    let mut places = [0; GROUP];
    let count = note_places(healthy, !some_healthy(healthy), &mut places);
    let considered = &places[..count];
    if count <= MOST {
        pick(considered, 0)
    } else {
        pick(considered, (word % count as u64) as usize)
    }
}

/// Notes the places of the sets that are healthy, or of all, and answers how many they are.
fn note_places(healthy: &[bool], all: bool, places: &mut [u8]) -> usize
    requires most { length healthy.now ≤ 100 }
    requires room { length healthy.now ≤ length places.old }
    ensures few { result ≤ length healthy.now }
    ensures noted { take result places.new ≡ places_from 0 (map (λ h. h || all) healthy.now) }
{
    let mut count = 0;
    for i in 0..healthy.len() {
        places[count] = i as u8;
        count += one_if_considered(healthy[i], all);
    }
    count
}

/// 1 for a set that is considered, and else 0.
fn one_if_considered(healthy: bool, all: bool) -> usize
    ensures { result ≡ (if healthy || all then 1 else 0) }
{
    usize::from(healthy || all)
}

/// At most eight of these sets, in cyclic order from one of them on.
fn pick(considered: &[u8], from: usize) -> Picked
    requires few { length considered.now ≤ 100 }
    requires within { from < length considered.now }
    ensures { result ≡ picked (take 8 (cyclic_from from considered.now)) }
{
    let mut places = [0; MOST];
    let count = MOST.min(considered.len());
    for j in 0..count {
        places[j] = usize::from(considered[(from + j) % considered.len()]);
    }
    Picked { places, count }
}
