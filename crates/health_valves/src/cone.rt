//! The valves above some valves, each once, and each before all that it feeds.

ghost use Rattle.std.specs.Prelude.{◌≡◌, ◌≤◌, ◌<◌, ◌^◌, ℕ, All, Bool, true, false, List, length};
ghost use Rattle.std.specs.Prelude.{reverse, vec_len, slice_set, if◌then◌else◌, ◌++◌, ◌∷◌, [], ◌⊎◌};
ghost use Rattle.std.specs.Vec.{vec_capacity};
ghost use Rattle.std.specs.List.{Contains};
ghost use Rattle.health_valves.specs.Valves.{value_in, FedBy};
ghost use Rattle.health_valves.specs.Walk.{EachOnce, IsAbove, InCone, FeedersFirst, IsConeOf, PathsEnd};
ghost use Rattle.health_valves.specs.Walk.{IsShallow};
ghost use Rattle.health_valves.specs.Listed.{Fills, IsListed};

use valve_feeds::FeedLists;

/// No path of feeds has more valves; where one has, what is behind them isn't listed.
const DEPTH: u8 = 64;

/// Whether a valve is marked.
fn is_marked(marks: &[bool], valve: u32) -> bool
    requires { valve < length marks.now }
    ensures { result ≡ value_in marks.now valve }
{
    marks[valve as usize]
}

/// Lists a valve that isn't marked yet, and marks it. It takes no memory.
fn add(cone: &mut Vec<u32>, marks: &mut Vec<bool>, valve: u32)
    requires valve { valve < vec_len marks.old }
    requires fills { Fills cone.old marks.old }
    ensures cone { reverse cone.new.items
        ≡ (if value_in marks.old.items valve then reverse cone.old.items else valve ∷ reverse cone.old.items) }
    ensures marks { marks.new.items ≡ slice_set marks.old.items valve true }
    ensures fills { Fills cone.new marks.new }
    ensures room { vec_capacity cone.new ≡ vec_capacity cone.old }
    ensures marks_room { vec_capacity marks.new ≡ vec_capacity marks.old }
{
    if is_marked(marks, valve) {
        return;
    }
    marks[valve as usize] = true;
    cone.push_reserved(valve);
}

/// Lists a valve and what it feeds, and so on, where it isn't listed yet; the valve itself comes
/// last. It takes no memory.
fn visit(feeds: &FeedLists, cone: &mut Vec<u32>, marks: &mut Vec<bool>, valve: u32, depth: u8)
    requires valve { valve < length feeds.now.fed }
    requires shallow { PathsEnd (FedBy feeds.now) 64
        → IsShallow (FedBy feeds.now) depth (FedBy feeds.now valve) }
    requires size { length marks.old.items ≡ length feeds.now.fed }
    requires fills { Fills cone.old marks.old }
    requires listed { IsListed (FedBy feeds.now) (reverse cone.old.items) marks.old.items }

    // It is listed then, and what was listed still is; and nothing else but what stands above it.
    ensures listed { IsListed (FedBy feeds.now) (reverse cone.new.items) marks.new.items }
    ensures here { Contains (reverse cone.new.items) valve }
    ensures goes_on { (y : ℕ) → Contains (reverse cone.old.items) y
        → Contains (reverse cone.new.items) y }
    ensures only { (y : ℕ) → Contains (reverse cone.new.items) y
        → Contains (reverse cone.old.items) y ⊎ IsAbove (FedBy feeds.now) valve y }

    ensures fills { Fills cone.new marks.new }
    ensures size { length marks.new.items ≡ length marks.old.items }
    ensures room { vec_capacity cone.new ≡ vec_capacity cone.old }
    ensures marks_room { vec_capacity marks.new ≡ vec_capacity marks.old }
{
    if is_marked(marks, valve) {
        return;
    }
    if depth == 0 {
        add(cone, marks, valve);
        return;
    }
    for next in feeds.fed(valve) {
        visit(feeds, cone, marks, next, depth - 1);
    }
    add(cone, marks, valve);
}

/// Lists the cone of some valves beside what is listed, each valve when all that it feeds is listed.
/// It takes no memory.
fn walk(feeds: &FeedLists, cone: &mut Vec<u32>, marks: &mut Vec<bool>, valves: &[u32])
    requires valves { All (λ y. y < length feeds.now.fed) valves.now }
    requires size { length marks.old.items ≡ length feeds.now.fed }
    requires fills { Fills cone.old marks.old }
    requires listed { IsListed (FedBy feeds.now) (reverse cone.old.items) marks.old.items }
    ensures listed { IsListed (FedBy feeds.now) (reverse cone.new.items) marks.new.items }
    ensures valves { (y : ℕ) → Contains valves.now y → Contains (reverse cone.new.items) y }
    ensures goes_on { (y : ℕ) → Contains (reverse cone.old.items) y
        → Contains (reverse cone.new.items) y }
    ensures only { (y : ℕ) → Contains (reverse cone.new.items) y
        → Contains (reverse cone.old.items) y ⊎ InCone (FedBy feeds.now) valves.now y }

    ensures fills { Fills cone.new marks.new }
    ensures size { length marks.new.items ≡ length marks.old.items }
    ensures room { vec_capacity cone.new ≡ vec_capacity cone.old }
    ensures marks_room { vec_capacity marks.new ≡ vec_capacity marks.old }
{
    for valve in valves {
        visit(feeds, cone, marks, *valve, DEPTH);
    }
}

/// Lists the cone of some valves; taken from its end, each valve comes before all that it feeds. It
/// takes no memory.
pub fn list_cone(feeds: &FeedLists, cone: &mut Vec<u32>, marks: &mut Vec<bool>, starts: &[u32])
    requires starts { All (λ y. y < length feeds.now.fed) starts.now }
    requires size { length marks.old.items ≡ length feeds.now.fed }
    requires room { length feeds.now.fed ≤ vec_capacity cone.old }
    requires empty { cone.old.items ≡ [] }
    requires unmarked { (y : ℕ) → value_in marks.old.items y ≡ false }
    ensures walk { PathsEnd (FedBy feeds.now) 64
        → IsConeOf (FedBy feeds.now) starts.now (reverse cone.new.items) }
    ensures once { EachOnce (reverse cone.new.items) }
    ensures only { (y : ℕ) → Contains (reverse cone.new.items) y
        → InCone (FedBy feeds.now) starts.now y }
    ensures few { (nodes : List ℕ) → ((y : ℕ) → InCone (FedBy feeds.now) starts.now y
        → Contains nodes y)
        → length cone.new.items ≤ length nodes }
    ensures within { All (λ y. y < length feeds.now.fed) (reverse cone.new.items) }
    ensures marked { (y : ℕ) → value_in marks.new.items y ≡ true
        → Contains (reverse cone.new.items) y }
    ensures size { length marks.new.items ≡ length marks.old.items }
    ensures room { vec_capacity cone.new ≡ vec_capacity cone.old }
    ensures marks_room { vec_capacity marks.new ≡ vec_capacity marks.old }
{
    walk(feeds, cone, marks, starts);
}

/// Lists all valves; taken from the end, each comes before all that it feeds. It takes no memory.
pub fn list_all(feeds: &FeedLists, cone: &mut Vec<u32>, marks: &mut Vec<bool>)
    requires size { length marks.old.items ≡ length feeds.now.fed }
    requires room { length feeds.now.fed ≤ vec_capacity cone.old }
    requires empty { cone.old.items ≡ [] }
    requires unmarked { (y : ℕ) → value_in marks.old.items y ≡ false }
    ensures all { (y : ℕ) → y < length feeds.now.fed → Contains (reverse cone.new.items) y }
    ensures first { PathsEnd (FedBy feeds.now) 64
        → FeedersFirst (FedBy feeds.now) (reverse cone.new.items) }
    ensures few { length cone.new.items ≤ length feeds.now.fed }
    ensures within { All (λ y. y < length feeds.now.fed) (reverse cone.new.items) }
    ensures marked { (y : ℕ) → value_in marks.new.items y ≡ true
        → Contains (reverse cone.new.items) y }
    ensures size { length marks.new.items ≡ length marks.old.items }
    ensures room { vec_capacity cone.new ≡ vec_capacity cone.old }
    ensures marks_room { vec_capacity marks.new ≡ vec_capacity marks.old }
{
    for valve in 0..feeds.len() {
        visit(feeds, cone, marks, valve as u32, DEPTH);
    }
}
