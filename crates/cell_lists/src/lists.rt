//! Lists of cells by their owners.

ghost use Rattle.std.specs.Prelude.{◌≡◌, ◌≢◌, ◌≤◌, ◌<◌, ◌+◌, ◌++◌, ◌∷◌, [], ◌^◌, ℕ, IsOk, OnOk};
ghost use Rattle.std.specs.Prelude.{length, slice_index, IfSome};
ghost use Rattle.std.specs.List.{All, Contains};
ghost use Rattle.cell_lists.specs.Lists.{AreApart, IsFree, first_of, list_of, with_list, without};

use crate::links::{Head, head_at, link, link_at, unlink};
use crate::room::make_room_for;
use crate::walk::Cells;
use octets::OutOfMemory;
use std::alloc::Global;
use std::marker::Model;

/// The most cells: one fewer than there are numbers for them, so that a count of them is one too.
const MAX_CELLS: usize = 0xffff_ffff;

/// Lists of cells, each of an owner.
///
/// Memory is taken by `reserve` alone.
#[derive(Debug, Drop)]
pub struct CellLists {
    heads: Vec<Head>,
    /// What stands behind each cell.
    next: Vec<u32>,
    /// What stands before each cell that isn't the first.
    before: Vec<u32>,
}

impl Model for CellLists {
    ghost use Rattle.std.specs.Prelude.{◌-◌, ◌^◌, length, min, vec_capacity};
    ghost use Rattle.cell_lists.specs.Linked.{IsIntact, lists_in};
    ghost use Rattle.cell_lists.specs.Lists.{Lists};

    ghost Value = { Lists };

    ghost view = { λ s. record {
      lists = lists_in s.heads.items s.next.items;
      cells = length s.next.items;
      owners_room = vec_capacity s.heads - length s.heads.items;
      cells_room = min (min (vec_capacity s.next) (vec_capacity s.before)) (2 ^ 32 - 1)
          - length s.next.items;
    } };

    ghost invariant = { λ s. IsIntact s.heads.items s.next.items s.before.items };
}

impl CellLists {
    /// No owner and no cell.
    pub fn new(alloc: Global) -> CellLists
        ensures { result ≡ record { lists = []; cells = 0; owners_room = 0; cells_room = 0 } }
    {
        CellLists {
            heads: Vec::new(alloc),
            next: Vec::new(alloc),
            before: Vec::new(alloc),
        }
    }

    /// Makes room for so many owners and cells more. Where it answers OutOfMemory, no room is lost.
    ///
    /// There are fewer than 2^32 cells; beyond that the answer is OutOfMemory too.
    pub fn reserve(&mut self, owners: usize, cells: usize) -> Result<(), OutOfMemory>
        ensures lists { self.new.lists ≡ self.old.lists }
        ensures cells { self.new.cells ≡ self.old.cells }
        ensures room { OnOk result (owners ≤ self.new.owners_room) }
        ensures cells_room { OnOk result (cells ≤ self.new.cells_room) }
        ensures ready { owners ≤ self.old.owners_room → cells ≤ self.old.cells_room → IsOk result }
        ensures kept { self.old.owners_room ≤ self.new.owners_room }
        ensures cells_kept { self.old.cells_room ≤ self.new.cells_room }
    {
        if cells > MAX_CELLS - self.next.len() {
            return Err(OutOfMemory);
        }
        let Ok(()) = make_room_for(&mut self.heads, owners) else {
            return Err(OutOfMemory);
        };
        let Ok(()) = make_room_for(&mut self.next, cells) else {
            return Err(OutOfMemory);
        };
        let Ok(()) = make_room_for(&mut self.before, cells) else {
            return Err(OutOfMemory);
        };
        Ok(())
    }

    /// Takes all owners and cells away, and keeps their room.
    pub fn clear(&mut self)
        ensures { self.new ≡ record {
          lists = [];
          cells = 0;
          owners_room = self.old.owners_room + length self.old.lists;
          cells_room = self.old.cells_room + self.old.cells;
        } }
    {
        self.heads.clear();
        self.next.clear();
        self.before.clear();
    }

    /// One owner more, who gets the next number and has no cell yet.
    pub fn push_owner(&mut self)
        requires { 1 ≤ self.old.owners_room }
        ensures lists { self.new.lists ≡ self.old.lists ++ [] ∷ [] }
        ensures cells { self.new.cells ≡ self.old.cells }
        ensures room { self.new.owners_room + 1 ≡ self.old.owners_room }
        ensures cells_room { self.new.cells_room ≡ self.old.cells_room }
    {
        self.heads.push_reserved(Head { first: 0, count: 0 });
    }

    /// One cell more, which gets the next number and is in no list.
    pub fn push_cell(&mut self)
        requires { 1 ≤ self.old.cells_room }
        ensures lists { self.new.lists ≡ self.old.lists }
        ensures cells { self.new.cells ≡ self.old.cells + 1 }
        ensures room { self.new.owners_room ≡ self.old.owners_room }
        ensures cells_room { self.new.cells_room + 1 ≡ self.old.cells_room }
        ensures free { IsFree self.new.lists self.old.cells }
    {
        self.next.push_reserved(0);
        self.before.push_reserved(0);
    }

    /// Puts a cell in front of a list. It must be in none.
    pub fn put(&mut self, owner: usize, cell: u32)
        requires owner { owner < length self.old.lists }
        requires cell { cell < self.old.cells }
        requires free { IsFree self.old.lists cell }
        ensures put { self.new ≡ with_list owner (cell ∷ list_of self.old owner) self.old }

        // The same by owners.
        ensures here { list_of self.new owner ≡ cell ∷ list_of self.old owner }
        ensures others { (other : ℕ) → other ≢ owner
            → list_of self.new other ≡ list_of self.old other }
    {
        let head = head_at(&self.heads, owner);
        self.heads[owner] = link(&mut self.next, &mut self.before, head, cell);
    }

    /// Takes a cell out of its list, wherever it stands there. It is in none then.
    pub fn take(&mut self, owner: usize, cell: u32)
        requires { Contains (list_of self.old owner) cell }
        ensures taken { self.new
            ≡ with_list owner (without cell (list_of self.old owner)) self.old }
        ensures free { IsFree self.new.lists cell }

        // The same by owners.
        ensures here { list_of self.new owner ≡ without cell (list_of self.old owner) }
        ensures others { (other : ℕ) → other ≢ owner
            → list_of self.new other ≡ list_of self.old other }
    {
        let head = head_at(&self.heads, owner);
        self.heads[owner] = unlink(&mut self.next, &mut self.before, head, cell);
    }

    /// How many cells the list of an owner has.
    pub fn count(&self, owner: usize) -> u32
        requires { owner < length self.now.lists }
        ensures { result ≡ length (list_of self.now owner) }
    {
        head_at(&self.heads, owner).count
    }

    /// The first cell of an owner: the one that came last.
    pub fn first(&self, owner: usize) -> Option<u32>
        requires { owner < length self.now.lists }
        ensures first { result ≡ first_of (list_of self.now owner) }
        ensures within { IfSome result (λ cell. cell < self.now.cells) }
    {
        let head = head_at(&self.heads, owner);
        if head.count == 0 {
            return None;
        }
        Some(head.first)
    }

    /// The cells of an owner, one after another.
    pub fn cells(&self, owner: usize) -> Cells<'_>
        requires { owner < length self.now.lists }
        ensures cells { result ≡ list_of self.now owner }
        ensures within { All (λ cell. cell < self.now.cells) result }
    {
        let head = head_at(&self.heads, owner);
        Cells {
            lists: self,
            owner,
            at: head.first,
            left: head.count,
        }
    }

    /// What stands behind a cell.
    pub(crate) fn behind(&self, owner: usize, cell: u32) -> u32
        requires { Contains (list_of self.now owner) cell }
        ensures { (k : ℕ) → slice_index (list_of self.now owner) k ≡ cell
            → k + 1 < length (list_of self.now owner)
            → result ≡ slice_index (list_of self.now owner) (k + 1) }
    {
        link_at(&self.next, cell)
    }

    /// How many owners more want no memory.
    pub fn owners_room(&self) -> usize
        ensures { result ≡ self.now.owners_room }
    {
        self.heads.capacity() - self.heads.len()
    }

    /// How many cells more want no memory.
    pub fn cells_room(&self) -> usize
        ensures room { result ≡ self.now.cells_room }
        ensures most { result < 2 ^ 32 }
    {
        let room = self.next.capacity().min(self.before.capacity());
        room.min(MAX_CELLS) - self.next.len()
    }

    /// How many owners there are.
    pub fn owners(&self) -> usize
        ensures { result ≡ length self.now.lists }
    {
        self.heads.len()
    }

    /// How many cells there are, in lists or not.
    pub fn len(&self) -> usize
        ensures cells { result ≡ self.now.cells }
        ensures most { result < 2 ^ 32 }
        ensures apart { AreApart self.now.lists self.now.cells }
    {
        self.next.len()
    }
}
