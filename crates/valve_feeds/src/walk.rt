//! Walks along the feeds of one valve.

ghost use Rattle.std.specs.Iterator.{YieldsFirst, item_count};

use crate::joining::Ends;
use cell_lists::Cells;
use std::marker::Model;

/// What a valve feeds, as far as it is still to come.
#[derive(Drop)]
pub struct FedWalk<'a> {
    pub(crate) ends: &'a [Ends],
    pub(crate) cells: Cells<'a>,
}

impl<'a> Model for FedWalk<'a> {
    ghost use Rattle.std.specs.Prelude.{ℕ, List};
    ghost use Rattle.valve_feeds.specs.Joined.{AreWithin, fed_in};

    ghost Value = { List ℕ };

    ghost view = { λ w. fed_in w.ends.now w.cells };

    ghost invariant = { λ w. AreWithin w.ends.now w.cells };
}

impl<'a> Iterator for FedWalk<'a> {
    type Item = u32;

    ghost next_gives = { YieldsFirst (λ rest. rest) };

    ghost remaining = { item_count (λ rest. rest) };

    fn next(&mut self) -> Option<u32> {
        let Some(cell) = self.cells.next() else {
            return None;
        };
        Some(self.ends[cell as usize].fed)
    }
}

/// What feeds a valve, as far as it is still to come.
#[derive(Drop)]
pub struct FeedersWalk<'a> {
    pub(crate) ends: &'a [Ends],
    pub(crate) cells: Cells<'a>,
}

impl<'a> Model for FeedersWalk<'a> {
    ghost use Rattle.std.specs.Prelude.{ℕ, List};
    ghost use Rattle.valve_feeds.specs.Joined.{AreWithin, feeders_in};

    ghost Value = { List ℕ };

    ghost view = { λ w. feeders_in w.ends.now w.cells };

    ghost invariant = { λ w. AreWithin w.ends.now w.cells };
}

impl<'a> Iterator for FeedersWalk<'a> {
    type Item = u32;

    ghost next_gives = { YieldsFirst (λ rest. rest) };

    ghost remaining = { item_count (λ rest. rest) };

    fn next(&mut self) -> Option<u32> {
        let Some(cell) = self.cells.next() else {
            return None;
        };
        Some(self.ends[cell as usize].feeder)
    }
}
