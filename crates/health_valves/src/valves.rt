//! Valves over valves: each open where enough of its feeders are, kept so as counts from outside
//! turn.

ghost use Rattle.std.specs.Prelude.{◌≡◌, ◌≢◌, ◌≤◌, ◌<◌, ◌+◌, ◌^◌, ◌↔◌, ◌∷◌, [], All, IsTrue};
ghost use Rattle.std.specs.Prelude.{List, false, if◌then◌else◌, length, slice_get, slice_index, true, ℕ};
ghost use Rattle.std.specs.Prelude.{Contains, IsOk, OnOk, Some};
ghost use Rattle.std.specs.List.Sorted.{IsPermutation};
ghost use Rattle.health_valves.specs.Laying.{HasRoomFor, HasRoomForOne, links_of};
ghost use Rattle.health_valves.specs.Blueprint.{IsDrawn, Drawn, net_in, no_blueprint, own_in};
ghost use Rattle.health_valves.specs.Valves.{Feeds, HasEnds, ValvesStandFor, IsReady, MeetsEquation, Net, count};
ghost use Rattle.health_valves.specs.Valves.{IsShared, IsSoleFeeder, equation, fed_condition};
ghost use Rattle.health_valves.specs.Valves.{size_of, unfed_condition, value_in, value_of};
ghost use Rattle.health_valves.specs.Valves.{with_condition, with_need, with_one_more, with_own};
ghost use Rattle.health_valves.specs.Pass.{CostsCone, HasCone, HasMarked, IsIdle, IsInOrder, MeetAll};
ghost use Rattle.health_valves.specs.Pass.{MeetBehind, MeetOutside, FlipsOnly, waiting};

use crate::blueprint::Blueprint;
use crate::cone::{list_all, list_cone};
use crate::feeding::{add_feeders, count_open};
use crate::laying::{lay_counts, lay_links, lay_none, lay_rows, lay_valves};
use crate::room::{make_feeds, make_room};
use crate::sharing::{feed_others, has_other, is_only, late_feeder};
use crate::steps::Steps;
use crate::unfeeding::take_feeders;
use crate::writes::{is_open, work_out};
use octets::OutOfMemory;
use std::alloc::Global;
use std::marker::Brand;
use std::sync::ledger::{Blank, Ledger};
use valve_feeds::{FedWalk, FeedLists};

/// What stays of a valve: how many feeders open it, or shut it.
#[derive(Clone, Copy, Debug, PartialEq, Eq)]
pub struct ValveFeeds {
    pub(crate) need: u32,
    pub(crate) inverted: bool,
}

/// Valves over valves.
#[derive(Debug, Drop)]
pub struct Valves {
    rows: Vec<ValveFeeds>,
    /// Which valves each valve feeds.
    feeds: FeedLists,
    values: Vec<bool>,
    /// How many feeders of each valve are open, and what is counted from outside.
    counts: Vec<u32>,
    /// What is counted from outside.
    owns: Vec<u32>,
    /// The valves that wait to be worked out; taken from the end. Empty between calls.
    cone: Vec<u32>,
    /// Which valves wait.
    marks: Vec<bool>,
}

impl Valves {
    /// No valves.
    pub fn new(alloc: Global) -> Valves
        ensures idle { IsIdle result }
        ensures fits { ValvesStandFor (net_in no_blueprint) (own_in no_blueprint) result }
    {
        Valves {
            rows: Vec::new(alloc),
            feeds: FeedLists::new(alloc),
            values: Vec::new(alloc),
            counts: Vec::new(alloc),
            owns: Vec::new(alloc),
            cone: Vec::new(alloc),
            marks: Vec::new(alloc),
        }
    }

    /// Makes room for a blueprint of so many valves and links in all. The valves stay as they are.
    pub fn reserve(&mut self, valves: usize, links: usize) -> Result<(), OutOfMemory>
        ensures room { OnOk result (HasRoomFor self.new valves links) }
        ensures ready { HasRoomFor self.old valves links → IsOk result }
        ensures kept { (n m : ℕ) → HasRoomFor self.old n m → HasRoomFor self.new n m }
        ensures stays { (net : Net) (own : ℕ → ℕ) → ValvesStandFor net own self.old → ValvesStandFor net own self.new }
        ensures meet { (net : Net) (own : ℕ → ℕ) → MeetAll net own self.old
            → MeetAll net own self.new }
        ensures idle { IsIdle self.old → IsIdle self.new }
        ensures values { self.new.values.items ≡ self.old.values.items }
        ensures size { size_of self.new ≡ size_of self.old }
        ensures links { links_of self.new ≡ links_of self.old }
    {
        let Ok(()) = make_room(&mut self.rows, valves) else {
            return Err(OutOfMemory);
        };
        let Ok(()) = make_feeds(&mut self.feeds, valves, links) else {
            return Err(OutOfMemory);
        };
        let Ok(()) = make_room(&mut self.values, valves) else {
            return Err(OutOfMemory);
        };
        let Ok(()) = make_room(&mut self.counts, valves) else {
            return Err(OutOfMemory);
        };
        let Ok(()) = make_room(&mut self.owns, valves) else {
            return Err(OutOfMemory);
        };
        let Ok(()) = make_room(&mut self.cone, valves) else {
            return Err(OutOfMemory);
        };
        let Ok(()) = make_room(&mut self.marks, valves) else {
            return Err(OutOfMemory);
        };
        Ok(())
    }

    /// Lays a blueprint out in place of what was there, and works all its valves out. It takes no memory.
    pub fn lay_out(&mut self, blueprint: &mut Blueprint)
        requires planned { IsDrawn blueprint.old }
        requires ends { HasEnds (net_in blueprint.old) }
        requires room { HasRoomFor self.old (length blueprint.old.triggers) (length blueprint.old.links) }
        ensures fits { ValvesStandFor (net_in blueprint.old) (own_in blueprint.old) self.new }
        ensures meet { MeetAll (net_in blueprint.old) (own_in blueprint.old) self.new }
        ensures idle { IsIdle self.new }
        ensures size { size_of self.new ≡ length blueprint.old.triggers }
        ensures laid_links { links_of self.new ≡ length blueprint.old.links }
        ensures kept { (n m : ℕ) → HasRoomFor self.old n m → HasRoomFor self.new n m }
        ensures triggers { blueprint.new.triggers ≡ blueprint.old.triggers }
        ensures links { length blueprint.new.links ≡ length blueprint.old.links }
        ensures blueprint_room { blueprint.new.room ≡ blueprint.old.room }
        ensures blueprint_links_room { blueprint.new.links_room ≡ blueprint.old.links_room }
    {
        blueprint.sort();
        self.set_up(blueprint);
        self.settle_uncounted::<Brand>(Blank::new(1));
    }

    /// Sets up the valves of a blueprint, none of them open.
    fn set_up(&mut self, blueprint: &Blueprint)
        requires planned { IsDrawn blueprint.now }
        requires room { HasRoomFor self.old (length blueprint.now.triggers) (length blueprint.now.links) }

        // They are those of each blueprint with these links in some order.
        ensures fits { (given : Drawn) → given.triggers ≡ blueprint.now.triggers
            → IsPermutation given.links blueprint.now.links
            → ValvesStandFor (net_in given) (own_in given) self.new }

        ensures idle { IsIdle self.new }
        ensures size { size_of self.new ≡ length blueprint.now.triggers }
        ensures links { links_of self.new ≡ length blueprint.now.links }
        ensures kept { (n m : ℕ) → HasRoomFor self.old n m → HasRoomFor self.new n m }
    {
        self.rows.clear();
        lay_rows(&mut self.rows, blueprint.triggers());
        self.feeds.clear();
        lay_valves(&mut self.feeds, blueprint.len());
        lay_links(&mut self.feeds, blueprint.links());
        self.counts.clear();
        lay_counts(&mut self.counts, blueprint.triggers());
        self.owns.clear();
        lay_counts(&mut self.owns, blueprint.triggers());
        self.values.clear();
        lay_none(&mut self.values, blueprint.len());
        self.marks.clear();
        lay_none(&mut self.marks, blueprint.len());
        self.cone.clear();
    }

    /// Works all valves out, with a count of its own that nobody sees.
    fn settle_uncounted<L: Ledger>(&mut self, blank: Blank)
        requires name { blank.name ≡ L.name }
        requires parts { blank.parts ≡ L.parts }
        requires some { 0 < blank.parts }
        requires ready { IsReady self.old }
        requires idle { IsIdle self.old }
        requires few { size_of self.old ≤ 2 ^ 32 }
        ensures fits { (net : Net) (own : ℕ → ℕ) → ValvesStandFor net own self.old → ValvesStandFor net own self.new }
        ensures idle { IsIdle self.new }
        ensures meet { (net : Net) (own : ℕ → ℕ) → ValvesStandFor net own self.old → HasEnds net
            → MeetAll net own self.new }
        ensures room { (n m : ℕ) → HasRoomFor self.old n m → HasRoomFor self.new n m }
        ensures size { size_of self.new ≡ size_of self.old }
        ensures links { links_of self.new ≡ links_of self.old }
    {
        let mut steps = Steps::<L>::new(blank);
        self.settle_all(&mut steps);
    }

    /// Works one valve out anew. The answer is whether its value changed.
    pub fn eval_node<L: Ledger>(&mut self, node: u32, steps: &mut Steps<L>) -> bool
        requires ready { IsReady self.old }
        requires node { node < size_of self.old }

        // It meets its equation then, and no other value changes.
        ensures fits { (net : Net) (own : ℕ → ℕ) → ValvesStandFor net own self.old → ValvesStandFor net own self.new }
        ensures meets { (net : Net) (own : ℕ → ℕ) → ValvesStandFor net own self.old → HasEnds net
            → MeetsEquation net own (value_of self.new) node }
        ensures others { (n : ℕ) → n ≢ node → value_of self.new n ≡ value_of self.old n }

        // A valve that it doesn't feed goes on meeting its own.
        ensures spares { (net : Net) (own : ℕ → ℕ) (n : ℕ) → ValvesStandFor net own self.old → n ≢ node
            → (Feeds net node n → ⊥)
            → MeetsEquation net own (value_of self.old) n
            → MeetsEquation net own (value_of self.new) n }

        ensures changed { IsTrue result ↔ (value_of self.new node ≢ value_of self.old node) }
        ensures tick { steps.new ≡ steps.old + 1 }
        ensures rest { FlipsOnly self.old self.new }
        ensures room { (n m : ℕ) → HasRoomFor self.old n m → HasRoomFor self.new n m }
        ensures size { size_of self.new ≡ size_of self.old }
        ensures links { links_of self.new ≡ links_of self.old }
    {
        steps.tick();
        let at = node as usize;
        let row = self.rows[at];
        let fed = self.feeds.fed(node);
        let values = self.values.as_mut_slice();
        let counts = self.counts.as_mut_slice();
        work_out(values, counts, at, row.need, row.inverted, fed)
    }

    /// Works one waiting valve out, and lets it wait no longer. The answer is whether one waited.
    fn pass_one<L: Ledger>(&mut self, steps: &mut Steps<L>) -> bool
        requires ready { IsReady self.old }
        requires within { All (λ y. y < size_of self.old) (waiting self.old) }
        requires first { IsInOrder self.old }
        requires marked { HasMarked self.old }
        ensures fits { (net : Net) (own : ℕ → ℕ) → ValvesStandFor net own self.old → ValvesStandFor net own self.new }
        ensures mends { (net : Net) (own : ℕ → ℕ) → ValvesStandFor net own self.old → HasEnds net
            → MeetBehind net own self.old → MeetBehind net own self.new }
        ensures within { All (λ y. y < size_of self.new) (waiting self.new) }
        ensures first { IsInOrder self.new }
        ensures marked { HasMarked self.new }
        ensures cost { steps.new + length self.new.cone.items
            ≡ steps.old + length self.old.cone.items }
        ensures fewer { result ≡ true → length self.new.cone.items < length self.old.cone.items }
        ensures end { result ≡ false → self.new.cone.items ≡ [] }
        ensures room { (n m : ℕ) → HasRoomFor self.old n m → HasRoomFor self.new n m }
        ensures size { size_of self.new ≡ size_of self.old }
        ensures links { links_of self.new ≡ links_of self.old }
    {
        let Some(valve) = self.cone.pop() else {
            return false;
        };
        self.marks[valve as usize] = false;
        self.eval_node(valve, steps);
        true
    }

    /// Works out the valves that wait, each once.
    fn pass<L: Ledger>(&mut self, steps: &mut Steps<L>)
        requires ready { IsReady self.old }
        requires within { All (λ y. y < size_of self.old) (waiting self.old) }
        requires first { IsInOrder self.old }
        requires marked { HasMarked self.old }
        ensures fits { (net : Net) (own : ℕ → ℕ) → ValvesStandFor net own self.old → ValvesStandFor net own self.new }
        ensures mends { (net : Net) (own : ℕ → ℕ) → ValvesStandFor net own self.old → HasEnds net
            → MeetBehind net own self.old → MeetAll net own self.new }
        ensures idle { IsIdle self.new }
        ensures cost { steps.new ≡ steps.old + length self.old.cone.items }
        ensures room { (n m : ℕ) → HasRoomFor self.old n m → HasRoomFor self.new n m }
        ensures size { size_of self.new ≡ size_of self.old }
        ensures links { links_of self.new ≡ links_of self.old }
    {
        while self.pass_one(steps) {}
    }

    /// Works out the cone of some valves, each valve of it once and before all that it feeds. It
    /// takes no memory.
    pub fn settle<L: Ledger>(&mut self, starts: &[u32], steps: &mut Steps<L>)
        requires ready { IsReady self.old }
        requires idle { IsIdle self.old }
        requires starts { All (λ y. y < size_of self.old) starts.now }
        ensures fits { (net : Net) (own : ℕ → ℕ) → ValvesStandFor net own self.old → ValvesStandFor net own self.new }
        ensures idle { IsIdle self.new }

        // Where all valves outside the cone met their equations, all valves do then.
        ensures mends { (net : Net) (own : ℕ → ℕ) → ValvesStandFor net own self.old → HasEnds net
            → MeetOutside net own starts.now self.old → MeetAll net own self.new }
        ensures cost { (net : Net) (own : ℕ → ℕ) (nodes : List ℕ) → ValvesStandFor net own self.old
            → HasCone net starts.now nodes
            → steps.new ≤ steps.old + length nodes }
        ensures cone { (net : Net) (own : ℕ → ℕ) → ValvesStandFor net own self.old
            → CostsCone net starts.now steps.old steps.new }
        ensures room { (n m : ℕ) → HasRoomFor self.old n m → HasRoomFor self.new n m }
        ensures size { size_of self.new ≡ size_of self.old }
        ensures links { links_of self.new ≡ links_of self.old }
    {
        list_cone(&self.feeds, &mut self.cone, &mut self.marks, starts);
        self.pass(steps);
    }

    /// Works out all valves, as after all of them were set up. It takes no memory.
    pub fn settle_all<L: Ledger>(&mut self, steps: &mut Steps<L>)
        requires ready { IsReady self.old }
        requires idle { IsIdle self.old }
        requires few { size_of self.old ≤ 2 ^ 32 }
        ensures fits { (net : Net) (own : ℕ → ℕ) → ValvesStandFor net own self.old → ValvesStandFor net own self.new }
        ensures idle { IsIdle self.new }
        ensures meet { (net : Net) (own : ℕ → ℕ) → ValvesStandFor net own self.old → HasEnds net
            → MeetAll net own self.new }
        ensures cost { steps.new ≤ steps.old + size_of self.old }
        ensures room { (n m : ℕ) → HasRoomFor self.old n m → HasRoomFor self.new n m }
        ensures size { size_of self.new ≡ size_of self.old }
        ensures links { links_of self.new ≡ links_of self.old }
    {
        list_all(&self.feeds, &mut self.cone, &mut self.marks);
        self.pass(steps);
    }

    /// The value of a valve.
    pub fn value(&self, valve: usize) -> bool
        requires ready { IsReady self.now }
        requires valve { valve < size_of self.now }
        ensures { result ≡ value_of self.now valve }
    {
        value_at(&self.values, valve)
    }

    /// What is counted at a valve: from outside, and of those that feed it the open ones.
    pub fn count(&self, valve: usize) -> u32
        requires valve { valve < size_of self.now }
        requires ready { IsReady self.now }
        ensures { (net : Net) (own : ℕ → ℕ) → ValvesStandFor net own self.now
            → result ≡ own valve + count (value_of self.now) (net.condition valve).feeders }
    {
        self.counts[valve]
    }

    /// How many of those that feed a valve have to be open.
    pub fn need(&self, valve: usize) -> u32
        requires valve { valve < size_of self.now }
        ensures { (net : Net) (own : ℕ → ℕ) → ValvesStandFor net own self.now
            → result ≡ (net.condition valve).need }
    {
        self.rows[valve].need
    }

    /// Whether a valve feeds another.
    pub fn feeds(&self, feeder: usize, valve: u32) -> bool
        requires ready { IsReady self.now }
        requires valve { valve < size_of self.now }
        ensures { (net : Net) (own : ℕ → ℕ) → ValvesStandFor net own self.now
            → IsTrue result ↔ Feeds net feeder valve }
    {
        if feeder >= self.feeds.len() {
            return false;
        }
        is_fed(self.feeds.fed(feeder as u32), valve)
    }

    /// Whether each valve from a number on that feeds a valve feeds another one too.
    pub fn is_shared(&self, valve: u32, first: usize) -> bool
        requires ready { IsReady self.now }
        requires valve { valve < size_of self.now }
        ensures { (net : Net) (own : ℕ → ℕ) → ValvesStandFor net own self.now
            → IsTrue result ↔ IsShared net valve first }
    {
        // A valve is fed by others as often as they feed it.
        self.feeds.len();
        feed_others(&self.feeds, self.feeds.feeders(valve), valve, first)
    }

    /// The valve from a number on that alone feeds a valve, where it feeds no other one.
    pub fn sole_feeder(&self, valve: u32, first: usize) -> Option<u32>
        requires ready { IsReady self.now }
        requires valve { valve < size_of self.now }
        ensures found { (net : Net) (own : ℕ → ℕ) → ValvesStandFor net own self.now → (x : ℕ)
            → result ≡ Some x → IsSoleFeeder net valve first x }
        ensures all { (net : Net) (own : ℕ → ℕ) → ValvesStandFor net own self.now → (x : ℕ)
            → IsSoleFeeder net valve first x → result ≡ Some x }
        ensures within { (x : ℕ) → result ≡ Some x → x < size_of self.now }
    {
        // A valve is fed by others as often as they feed it.
        self.feeds.len();
        let Some(feeder) = late_feeder(self.feeds.feeders(valve), first) else {
            return None;
        };
        if !is_only(self.feeds.feeders(valve), feeder, first) {
            return None;
        }
        if has_other(self.feeds.fed(feeder), valve) {
            return None;
        }
        Some(feeder)
    }

    /// How many valves there are.
    pub fn len(&self) -> usize
        ensures { result ≡ size_of self.now }
    {
        self.rows.len()
    }

    /// What is counted at a valve from outside.
    pub fn own(&self, valve: usize) -> u32
        requires valve { valve < size_of self.now }
        requires ready { IsReady self.now }
        ensures { (net : Net) (own : ℕ → ℕ) → ValvesStandFor net own self.now → result ≡ own valve }
    {
        self.owns[valve]
    }

    /// Takes what is counted from outside at a valve that nothing feeds, at most 2^31. The answer is whether
    /// its value changed.
    pub fn take_count<L: Ledger>(&mut self, valve: u32, count: u32, steps: &mut Steps<L>) -> bool
        requires ready { IsReady self.old }
        requires idle { IsIdle self.old }
        requires valve { valve < size_of self.old }
        requires small { count ≤ 2 ^ 31 }
        requires alone { (net : Net) (own : ℕ → ℕ) → ValvesStandFor net own self.old
            → (net.condition valve).feeders ≡ [] }
        ensures fits { (net : Net) (own : ℕ → ℕ) → ValvesStandFor net own self.old
            → ValvesStandFor net (with_own valve count own) self.new }
        ensures idle { IsIdle self.new }
        ensures meet { (net : Net) (own : ℕ → ℕ) → ValvesStandFor net own self.old → HasEnds net
            → MeetAll net own self.old → MeetAll net (with_own valve count own) self.new }
        ensures changed { (net : Net) (own : ℕ → ℕ) → ValvesStandFor net own self.old → HasEnds net
            → MeetAll net own self.old
            → IsTrue result ↔ (value_of self.new valve ≢ value_of self.old valve) }
        ensures quiet { result ≡ false → steps.new ≡ steps.old }
        ensures cost { (net : Net) (own : ℕ → ℕ) (nodes : List ℕ) → ValvesStandFor net own self.old
            → HasCone net (valve ∷ []) nodes
            → steps.new ≤ steps.old + (if result then length nodes else 0) }
        ensures cone { result ≡ true → (net : Net) (own : ℕ → ℕ) → ValvesStandFor net own self.old
            → CostsCone net (valve ∷ []) steps.old steps.new }
        ensures room { (n m : ℕ) → HasRoomFor self.old n m → HasRoomFor self.new n m }
        ensures size { size_of self.new ≡ size_of self.old }
        ensures links { links_of self.new ≡ links_of self.old }
    {
        self.put_own(valve, count);
        let row = self.rows[valve as usize];
        let now = is_open(row.need, row.inverted, count);
        let was = value_at(&self.values, valve as usize);
        if now == was {
            return false;
        }
        self.settle(&[valve], steps);
        true
    }

    /// Writes what is counted from outside.
    fn put_own(&mut self, valve: u32, own: u32)
        requires ready { IsReady self.old }
        requires valve { valve < size_of self.old }
        requires small { own ≤ 2 ^ 31 }
        ensures fits { (net : Net) (before : ℕ → ℕ) → ValvesStandFor net before self.old
            → ValvesStandFor net (with_own valve own before) self.new }
        ensures rest { self.new ≡ record self.old { counts = self.new.counts; owns = self.new.owns } }
        ensures room { (n m : ℕ) → HasRoomFor self.old n m → HasRoomFor self.new n m }
        ensures size { size_of self.new ≡ size_of self.old }
        ensures links { links_of self.new ≡ links_of self.old }
    {
        let at = valve as usize;
        let open = self.count(at) - self.own(at);
        self.counts[at] = open + own;
        self.owns[at] = own;
    }

    /// Another condition at a valve: so many of those that feed it have to be open, and it is inverted or
    /// not. What stands above it is worked out where its value changes. It takes no memory.
    pub fn reshape(&mut self, valve: u32, need: u32, inverted: bool)
        requires ready { IsReady self.old }
        requires idle { IsIdle self.old }
        requires valve { valve < size_of self.old }
        ensures fits { (net : Net) (own : ℕ → ℕ) → ValvesStandFor net own self.old
            → ValvesStandFor (with_need valve need inverted net) own self.new }
        ensures idle { IsIdle self.new }
        ensures meet { (net : Net) (own : ℕ → ℕ) → ValvesStandFor net own self.old → HasEnds net
            → MeetAll net own self.old
            → MeetAll (with_need valve need inverted net) own self.new }
        ensures room { (n m : ℕ) → HasRoomFor self.old n m → HasRoomFor self.new n m }
        ensures size { size_of self.new ≡ size_of self.old }
        ensures links { links_of self.new ≡ links_of self.old }
    {
        self.put_need(valve, need, inverted);
        let now = is_open(need, inverted, self.count(valve as usize));
        let was = value_at(&self.values, valve as usize);
        if now == was {
            return;
        }
        self.settle_above::<Brand>(valve, Blank::new(1));
    }

    /// Writes the condition of a valve.
    fn put_need(&mut self, valve: u32, need: u32, inverted: bool)
        requires ready { IsReady self.old }
        requires valve { valve < size_of self.old }
        ensures fits { (net : Net) (own : ℕ → ℕ) → ValvesStandFor net own self.old
            → ValvesStandFor (with_need valve need inverted net) own self.new }
        ensures rest { self.new ≡ record self.old { rows = self.new.rows } }
        ensures size { size_of self.new ≡ size_of self.old }
        ensures room { (n m : ℕ) → HasRoomFor self.old n m → HasRoomFor self.new n m }
        ensures links { links_of self.new ≡ links_of self.old }
    {
        self.rows[valve as usize] = ValveFeeds { need, inverted };
    }

    /// Takes what is counted from outside at a valve, at most 2^31, and works out what stands above it where
    /// its value changes. It takes no memory.
    pub fn set_count(&mut self, valve: u32, count: u32)
        requires ready { IsReady self.old }
        requires idle { IsIdle self.old }
        requires valve { valve < size_of self.old }
        requires small { count ≤ 2 ^ 31 }
        ensures fits { (net : Net) (own : ℕ → ℕ) → ValvesStandFor net own self.old
            → ValvesStandFor net (with_own valve count own) self.new }
        ensures idle { IsIdle self.new }
        ensures meet { (net : Net) (own : ℕ → ℕ) → ValvesStandFor net own self.old → HasEnds net
            → MeetAll net own self.old → MeetAll net (with_own valve count own) self.new }
        ensures room { (n m : ℕ) → HasRoomFor self.old n m → HasRoomFor self.new n m }
        ensures size { size_of self.new ≡ size_of self.old }
        ensures links { links_of self.new ≡ links_of self.old }
    {
        self.put_own(valve, count);
        let row = self.rows[valve as usize];
        let now = is_open(row.need, row.inverted, self.count(valve as usize));
        let was = value_at(&self.values, valve as usize);
        if now == was {
            return;
        }
        self.settle_above::<Brand>(valve, Blank::new(1));
    }

    /// Takes all feeds into a valve: nothing feeds it then, nothing has to be open for it, and nothing is
    /// counted at it from outside. It feeds what it fed, and what stands above it is worked out where its
    /// value changes. It takes no memory.
    pub fn unfeed(&mut self, valve: u32)
        requires ready { IsReady self.old }
        requires idle { IsIdle self.old }
        requires valve { valve < size_of self.old }
        ensures fits { (net : Net) (own : ℕ → ℕ) → ValvesStandFor net own self.old
            → ValvesStandFor (with_condition valve unfed_condition net) (with_own valve 0 own) self.new }
        ensures idle { IsIdle self.new }
        ensures meet { (net : Net) (own : ℕ → ℕ) → ValvesStandFor net own self.old → HasEnds net
            → MeetAll net own self.old
            → MeetAll (with_condition valve unfed_condition net) (with_own valve 0 own) self.new }
        ensures room { (n m : ℕ) → HasRoomFor self.old n m → HasRoomFor self.new n m }
        ensures size { size_of self.new ≡ size_of self.old }
        ensures links { links_of self.new ≤ links_of self.old }
    {
        self.cut(valve);
        if value_at(&self.values, valve as usize) {
            return;
        }
        self.settle_above::<Brand>(valve, Blank::new(1));
    }

    /// Leaves a valve without feeders, a count or a condition; its value stays.
    fn cut(&mut self, valve: u32)
        requires ready { IsReady self.old }
        requires valve { valve < size_of self.old }
        ensures fits { (net : Net) (own : ℕ → ℕ) → ValvesStandFor net own self.old
            → ValvesStandFor (with_condition valve unfed_condition net) (with_own valve 0 own) self.new }
        ensures rest { self.new ≡ record self.old {
          rows = self.new.rows;
          feeds = self.new.feeds;
          counts = self.new.counts;
          owns = self.new.owns;
        } }
        ensures size { size_of self.new ≡ size_of self.old }
        ensures room { (n m : ℕ) → HasRoomFor self.old n m → HasRoomFor self.new n m }
        ensures links { links_of self.new ≤ links_of self.old }
    {
        take_feeders(&mut self.feeds, valve);
        let at = valve as usize;
        self.rows[at] = ValveFeeds {
            need: 0,
            inverted: false,
        };
        self.counts[at] = 0;
        self.owns[at] = 0;
    }

    /// One valve more, behind those that there are: these feed it, as often as each is given, and all of them
    /// have to be open. It feeds none yet, so that no other value changes. It takes no memory.
    pub fn push_fed(&mut self, feeders: &[u32])
        requires ready { IsReady self.old }
        requires idle { IsIdle self.old }
        requires feeders { All (λ x. x < size_of self.old) feeders.now }
        requires few { length feeders.now < 2 ^ 31 }
        requires room { HasRoomForOne self.old (length feeders.now) }
        ensures fits { (net : Net) (own : ℕ → ℕ) → ValvesStandFor net own self.old
            → ValvesStandFor (with_one_more (fed_condition feeders.now) net) (with_own net.size 0 own) self.new }
        ensures idle { IsIdle self.new }
        ensures meet { (net : Net) (own : ℕ → ℕ) → ValvesStandFor net own self.old
            → MeetAll net own self.old
            → MeetAll (with_one_more (fed_condition feeders.now) net) (with_own net.size 0 own) self.new }
        ensures values { (n : ℕ) → n < size_of self.old → value_of self.new n ≡ value_of self.old n }
        ensures size { size_of self.new ≡ size_of self.old + 1 }
        ensures links { links_of self.new ≡ links_of self.old + length feeders.now }
        ensures room { (n m : ℕ) → HasRoomFor self.old n m → HasRoomFor self.new n m }
    {
        let valve = self.feeds.len() as u32;
        let need = feeders.len() as u32;
        let open = count_open(&self.values, feeders);
        self.rows.push_reserved(ValveFeeds {
            need,
            inverted: false,
        });
        self.feeds.push_valve();
        add_feeders(&mut self.feeds, valve, feeders);
        self.values.push_reserved(is_open(need, false, open));
        self.counts.push_reserved(open);
        self.owns.push_reserved(0);
        self.marks.push_reserved(false);
    }

    /// How many links there are.
    pub fn links(&self) -> usize
        ensures { result ≡ links_of self.now }
    {
        self.feeds.feeds()
    }

    /// Works out the cone of a valve, with a count of its own that nobody sees.
    fn settle_above<L: Ledger>(&mut self, valve: u32, blank: Blank)
        requires name { blank.name ≡ L.name }
        requires parts { blank.parts ≡ L.parts }
        requires some { 0 < blank.parts }
        requires ready { IsReady self.old }
        requires idle { IsIdle self.old }
        requires valve { valve < size_of self.old }
        ensures fits { (net : Net) (own : ℕ → ℕ) → ValvesStandFor net own self.old → ValvesStandFor net own self.new }
        ensures idle { IsIdle self.new }
        ensures mends { (net : Net) (own : ℕ → ℕ) → ValvesStandFor net own self.old → HasEnds net
            → MeetOutside net own (valve ∷ []) self.old → MeetAll net own self.new }
        ensures room { (n m : ℕ) → HasRoomFor self.old n m → HasRoomFor self.new n m }
        ensures size { size_of self.new ≡ size_of self.old }
        ensures links { links_of self.new ≡ links_of self.old }
    {
        let mut steps = Steps::<L>::new(blank);
        self.settle(&[valve], &mut steps);
    }
}

/// Whether a valve is open.
fn value_at(values: &[bool], valve: usize) -> bool
    requires { valve < length values.now }
    ensures { result ≡ value_in values.now valve }
{
    values[valve]
}

/// Whether a valve is one of those that a walk has left.
fn is_fed(fed: FedWalk<'_>, valve: u32) -> bool
    ensures { IsTrue result ↔ Contains fed.entry valve }
{
    for other in fed {
        if other == valve {
            return true;
        }
    }
    false
}
