//! Feeds by their valves.

ghost use Rattle.std.specs.Prelude.{◌≡◌, ◌≤◌, ◌<◌, ◌+◌, ◌++◌, ◌∷◌, [], ◌^◌, ℕ, All, IsOk, OnOk};
ghost use Rattle.std.specs.Prelude.{length};
ghost use Rattle.cell_lists.specs.Lists.{first_of};
ghost use Rattle.valve_feeds.specs.Feeds.{AreReversed, TakesInto, TakesOut, fed_by, feeders_of};
ghost use Rattle.valve_feeds.specs.Feeds.{with_feed};

use crate::joining::{Ends, free_cell, free_count, list_from, part, push_list};
use crate::walk::{FedWalk, FeedersWalk};
use cell_lists::{CellLists, make_room_for};
use octets::OutOfMemory;
use std::alloc::Global;
use std::marker::Model;

/// The most valves, one fewer than there are numbers for them.
const MAX_VALVES: usize = 0xffff_ffff;

/// The feeds between valves.
///
/// Memory is taken by `reserve` alone.
#[derive(Debug, Drop)]
pub struct FeedLists {
    ends: Vec<Ends>,
    /// The feeds of each valve, behind the cells that are no feeds.
    out: CellLists,
    /// The feeds into each valve.
    into: CellLists,
}

impl Model for FeedLists {
    ghost use Rattle.valve_feeds.specs.Feeds.{BothWays};
    ghost use Rattle.valve_feeds.specs.Joined.{IsJoined, both_ways};

    ghost Value = { BothWays };

    ghost view = { λ s. both_ways s.ends s.out s.into };

    ghost invariant = { λ s. IsJoined s.ends.items s.out s.into };
}

impl FeedLists {
    /// No valve.
    pub fn new(alloc: Global) -> FeedLists
        ensures { result ≡ record { fed = []; feeders = []; room = 0; most = 0; valves_room = 0 } }
    {
        FeedLists {
            ends: Vec::new(alloc),
            out: CellLists::new(alloc),
            into: CellLists::new(alloc),
        }
    }

    /// Makes room for so many valves more, and for so many feeds more in all. Where it answers
    /// OutOfMemory, no room is lost.
    ///
    /// There are fewer than 2^32 valves, and fewer than 2^32 feeds; beyond that the answer is
    /// OutOfMemory too.
    pub fn reserve(&mut self, valves: usize, feeds: usize) -> Result<(), OutOfMemory>
        ensures fed { self.new.fed ≡ self.old.fed }
        ensures feeders { self.new.feeders ≡ self.old.feeders }
        ensures room { OnOk result (feeds ≤ self.new.room) }
        ensures valves_room { OnOk result (valves ≤ self.new.valves_room) }
        ensures ready { valves ≤ self.old.valves_room → feeds ≤ self.old.room → IsOk result }
        ensures kept { self.old.room ≤ self.new.room }
        ensures valves_kept { self.old.valves_room ≤ self.new.valves_room }
        ensures most { self.new.most + self.old.room ≡ self.old.most + self.new.room }
    {
        if valves > MAX_VALVES - self.into.owners() {
            return Err(OutOfMemory);
        }
        let free = free_count(&self.out);
        let cells = feeds.saturating_sub(free);
        let first = if valves > 0 && self.out.owners() == 0 {
            1
        } else {
            0
        };
        let Ok(()) = make_room_for(&mut self.ends, cells) else {
            return Err(OutOfMemory);
        };
        let Ok(()) = self.out.reserve(valves + first, cells) else {
            return Err(OutOfMemory);
        };
        let Ok(()) = self.into.reserve(valves, cells) else {
            return Err(OutOfMemory);
        };
        Ok(())
    }

    /// Takes all valves and feeds away, and keeps their room.
    pub fn clear(&mut self)
        ensures { self.new ≡ record {
          fed = [];
          feeders = [];
          room = self.old.most;
          most = self.old.most;
          valves_room = self.old.valves_room + length self.old.fed;
        } }
    {
        self.ends.clear();
        self.out.clear();
        self.into.clear();
    }

    /// One valve more, which gets the next number and neither feeds nor is fed.
    pub fn push_valve(&mut self)
        requires { 1 ≤ self.old.valves_room }
        ensures fed { self.new.fed ≡ self.old.fed ++ [] ∷ [] }
        ensures feeders { self.new.feeders ≡ self.old.feeders ++ [] ∷ [] }
        ensures room { self.new.room ≡ self.old.room }
        ensures most { self.new.most ≡ self.old.most }
        ensures valves_room { self.new.valves_room + 1 ≡ self.old.valves_room }
    {
        push_list(&mut self.out);
        self.into.push_owner();
    }

    /// One valve feeds another, or itself, once more.
    pub fn feed(&mut self, feeder: u32, fed: u32)
        requires feeder { feeder < length self.old.fed }
        requires fed { fed < length self.old.fed }
        requires room { 1 ≤ self.old.room }
        ensures { self.new ≡ with_feed feeder fed self.old }
    {
        let cell = free_cell(&mut self.ends, &mut self.out, &mut self.into);
        self.ends[cell as usize] = Ends { feeder, fed };
        self.out.put(list_from(feeder), cell);
        self.into.put(fed as usize, cell);
    }

    /// Takes the feed into a valve that came last. The answer is its feeder; None where nothing
    /// feeds the valve.
    pub fn take_into(&mut self, fed: u32) -> Option<u32>
        requires { fed < length self.old.fed }
        ensures { TakesInto self.old fed result self.new }
    {
        let Some(cell) = self.into.first(fed as usize) else {
            return None;
        };
        let ends = part(&self.ends, &mut self.out, &mut self.into, cell);
        Some(ends.feeder)
    }

    /// Takes the feed of a valve that came last. The answer is what it fed; None where the valve
    /// feeds nothing.
    pub fn take_out(&mut self, feeder: u32) -> Option<u32>
        requires { feeder < length self.old.fed }
        ensures { TakesOut self.old feeder result self.new }
    {
        let Some(cell) = self.out.first(list_from(feeder)) else {
            return None;
        };
        let ends = part(&self.ends, &mut self.out, &mut self.into, cell);
        Some(ends.fed)
    }

    /// The valves that a valve feeds, one after another, each once for each feed.
    pub fn fed(&self, feeder: u32) -> FedWalk<'_>
        requires { feeder < length self.now.fed }
        ensures fed { result ≡ fed_by self.now feeder }
        ensures within { All (λ y. y < length self.now.fed) result }
    {
        FedWalk {
            ends: &self.ends,
            cells: self.out.cells(list_from(feeder)),
        }
    }

    /// The valves that feed a valve, one after another, each once for each feed.
    pub fn feeders(&self, fed: u32) -> FeedersWalk<'_>
        requires { fed < length self.now.fed }
        ensures feeders { result ≡ feeders_of self.now fed }
        ensures within { All (λ x. x < length self.now.fed) result }
    {
        FeedersWalk {
            ends: &self.ends,
            cells: self.into.cells(fed as usize),
        }
    }

    /// How many feeds more want no memory.
    pub fn room(&self) -> usize
        ensures { result ≡ self.now.room }
    {
        let cells = self.out.cells_room().min(self.into.cells_room());
        let more = cells.min(self.ends.capacity() - self.ends.len());
        free_count(&self.out) + more
    }

    /// How many valves more want no memory.
    pub fn valves_room(&self) -> usize
        ensures { result ≡ self.now.valves_room }
    {
        let first = if self.out.owners() == 0 { 1 } else { 0 };
        let lists = self.out.owners_room().saturating_sub(first);
        let valves = self.into.owners_room().min(lists);
        valves.min(MAX_VALVES - self.into.owners())
    }

    /// How many feeds there are.
    pub fn feeds(&self) -> usize
        ensures { result + self.now.room ≡ self.now.most }
    {
        // Its lists are apart.
        self.out.len();
        self.ends.len() - free_count(&self.out)
    }

    /// How many feeds a valve has.
    pub fn fed_count(&self, feeder: u32) -> u32
        requires { feeder < length self.now.fed }
        ensures { result ≡ length (fed_by self.now feeder) }
    {
        self.out.count(list_from(feeder))
    }

    /// How many feeds go into a valve.
    pub fn feeders_count(&self, fed: u32) -> u32
        requires { fed < length self.now.fed }
        ensures { result ≡ length (feeders_of self.now fed) }
    {
        self.into.count(fed as usize)
    }

    /// How many valves there are.
    pub fn len(&self) -> usize
        ensures len { result ≡ length self.now.fed }
        ensures most { result < 2 ^ 32 }
        ensures reversed { AreReversed self.now }
    {
        // Their lists are apart.
        self.out.len();
        self.into.len();
        self.into.owners()
    }
}
