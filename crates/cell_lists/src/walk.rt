//! A walk along one list.

ghost use Rattle.std.specs.Prelude.{◌≡◌};
ghost use Rattle.std.specs.Iterator.{YieldsFirst, item_count};

use crate::lists::CellLists;
use std::marker::Model;

/// The cells of a list that are still to come.
#[derive(Drop)]
pub struct Cells<'a> {
    pub(crate) lists: &'a CellLists,
    pub(crate) owner: usize,
    pub(crate) at: u32,
    pub(crate) left: u32,
}

impl<'a> Model for Cells<'a> {
    ghost use Rattle.std.specs.Prelude.{ℕ, List};
    ghost use Rattle.cell_lists.specs.Lists.{list_of};
    ghost use Rattle.cell_lists.specs.Walk.{last_of, IsOnWay};

    ghost Value = { List ℕ };

    ghost view = { λ w. last_of (list_of w.lists.now w.owner) w.left };

    ghost invariant = { λ w. IsOnWay (list_of w.lists.now w.owner) w.at w.left };
}

impl<'a> Iterator for Cells<'a> {
    type Item = u32;

    ghost next_gives = { YieldsFirst (λ rest. rest) };

    ghost remaining = { item_count (λ rest. rest) };

    fn next(&mut self) -> Option<u32> {
        if self.left == 0 {
            return None;
        }
        let cell = self.at;
        self.at = self.lists.behind(self.owner, cell);
        self.left -= 1;
        Some(cell)
    }
}
