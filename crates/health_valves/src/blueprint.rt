//! Valves before they are laid, one after another, each with what feeds it.

ghost use Rattle.std.specs.Prelude.{◌≡◌, ◌≤◌, ◌<◌, ◌+◌, ◌∷◌, ◌++◌, [], IsOk, OnOk, length, slice_set};
ghost use Rattle.std.specs.List.Sorted.{IsPermutation};

use cell_lists::make_room_for;
use octets::OutOfMemory;
use std::alloc::Global;
use std::marker::Model;

/// What opens a valve.
#[derive(Clone, Copy, Debug, PartialEq, Eq)]
pub struct Trigger {
    /// How many have to be counted.
    pub need: u32,
    /// Whether the valve is open exactly where it would not be.
    pub inverted: bool,
    /// How many are counted from outside.
    pub own: u32,
}

/// One valve feeds another.
#[derive(Clone, Copy, Debug, PartialEq, Eq)]
pub struct Feeding {
    pub feeder: u32,
    pub fed: u32,
}

/// Valves to be laid.
#[derive(Debug, Drop)]
pub struct Blueprint {
    triggers: Vec<Trigger>,
    links: Vec<Feeding>,
}

impl Model for Blueprint {
    ghost use Rattle.std.specs.Prelude.{◌-◌, length, vec_capacity};
    ghost use Rattle.health_valves.specs.Blueprint.{Drawn};

    ghost Value = { Drawn };

    ghost view = { λ p. record {
      triggers = p.triggers.items;
      links = p.links.items;
      room = vec_capacity p.triggers - length p.triggers.items;
      links_room = vec_capacity p.links - length p.links.items;
    } };
}

impl Blueprint {
    /// No valves.
    pub fn new(alloc: Global) -> Blueprint
        ensures { result ≡ record { triggers = []; links = []; room = 0; links_room = 0 } }
    {
        Blueprint {
            triggers: Vec::new(alloc),
            links: Vec::new(alloc),
        }
    }

    /// Makes room for so many valves and links more.
    pub fn reserve(&mut self, valves: usize, links: usize) -> Result<(), OutOfMemory>
        ensures triggers { self.new.triggers ≡ self.old.triggers }
        ensures links { self.new.links ≡ self.old.links }
        ensures room { OnOk result (valves ≤ self.new.room) }
        ensures links_room { OnOk result (links ≤ self.new.links_room) }
        ensures ready { valves ≤ self.old.room → links ≤ self.old.links_room → IsOk result }
        ensures kept { self.old.room ≤ self.new.room }
        ensures links_kept { self.old.links_room ≤ self.new.links_room }
    {
        let Ok(()) = make_room_for(&mut self.triggers, valves) else {
            return Err(OutOfMemory);
        };
        let Ok(()) = make_room_for(&mut self.links, links) else {
            return Err(OutOfMemory);
        };
        Ok(())
    }

    /// Takes all valves away, and keeps their room.
    pub fn clear(&mut self)
        ensures triggers { self.new.triggers ≡ [] }
        ensures links { self.new.links ≡ [] }
        ensures room { self.new.room ≡ self.old.room + length self.old.triggers }
        ensures links_room { self.new.links_room ≡ self.old.links_room + length self.old.links }
    {
        self.triggers.clear();
        self.links.clear();
    }

    /// One valve more, which gets the next number.
    pub fn push(&mut self, trigger: Trigger)
        requires { 1 ≤ self.old.room }
        ensures triggers { self.new.triggers ≡ self.old.triggers ++ trigger ∷ [] }
        ensures links { self.new.links ≡ self.old.links }
        ensures room { self.new.room + 1 ≡ self.old.room }
        ensures links_room { self.new.links_room ≡ self.old.links_room }
    {
        self.triggers.push_reserved(trigger);
    }

    /// Another trigger at a valve that there is.
    pub fn put(&mut self, valve: u32, trigger: Trigger)
        requires { valve < length self.old.triggers }
        ensures triggers { self.new.triggers ≡ slice_set self.old.triggers valve trigger }
        ensures links { self.new.links ≡ self.old.links }
        ensures room { self.new.room ≡ self.old.room }
        ensures links_room { self.new.links_room ≡ self.old.links_room }
    {
        self.triggers[valve as usize] = trigger;
    }

    /// One valve feeds another.
    pub fn feed(&mut self, link: Feeding)
        requires { 1 ≤ self.old.links_room }
        ensures triggers { self.new.triggers ≡ self.old.triggers }
        ensures links { self.new.links ≡ self.old.links ++ link ∷ [] }
        ensures room { self.new.room ≡ self.old.room }
        ensures links_room { self.new.links_room + 1 ≡ self.old.links_room }
    {
        self.links.push_reserved(link);
    }

    /// How many links there are.
    pub fn links_len(&self) -> usize
        ensures { result ≡ length self.now.links }
    {
        self.links.len()
    }

    /// How many valves there are.
    pub fn len(&self) -> usize
        ensures { result ≡ length self.now.triggers }
    {
        self.triggers.len()
    }

    /// What opens each valve.
    pub(crate) fn triggers(&self) -> &[Trigger]
        ensures { result.now ≡ self.now.triggers }
    {
        &self.triggers
    }

    /// The links as they stand.
    pub(crate) fn links(&self) -> &[Feeding]
        ensures { result.now ≡ self.now.links }
    {
        &self.links
    }

    /// Puts the links in order by their feeders, so that a walk along them goes through memory in
    /// order once they are laid.
    pub(crate) fn sort(&mut self)
        ensures triggers { self.new.triggers ≡ self.old.triggers }
        ensures permutation { IsPermutation self.old.links self.new.links }
        ensures room { self.new.room ≡ self.old.room }
        ensures links_room { self.new.links_room ≡ self.old.links_room }
    {
        sort_links(&mut self.links);
    }
}

/// Puts links in order by their feeders.
fn sort_links(links: &mut [Feeding])
    ensures { IsPermutation links.old links.new }
{
    links.sort_unstable_by_key(|link| link.feeder);
}
