//! Octets by handles, and the cells that are free.

ghost use Rattle.std.specs.Prelude.{◌≡◌, ◌≢◌, ◌≤◌, ◌<◌, ◌+◌, ◌-◌, ◌^◌, ◌++◌, ℕ, List, length, max};
ghost use Rattle.std.specs.Prelude.{None, Some, IsOk, MatchResult};
ghost use Rattle.std.specs.FinMap as map;
ghost use Rattle.octet_region.specs.Cells.{cells_for};
ghost use Rattle.octet_region.specs.Stored.{Copies, Frees, CopiesFrom, StandsAt, front_of, length_of, piece_of};
ghost use Rattle.octet_region.specs.Stored.{pieces_of};

use crate::Handle;
use crate::cells::{Cell, cells_for};
use crate::chains::{free_along, put_along};
use crate::growth::{give_cells, make_room};
use crate::reads::{
    copy_part, copy_whole, front_at, is_live, piece_at, pieces_at, size_at, stand_at,
};
use octets::OutOfMemory;
use std::alloc::Global;
use std::marker::Model;

/// The most cells: their octets are four gibibytes. Links have room for 2^31 - 33.
const MAX_CELLS: usize = 0x7ff_ffff;

/// Octets by handles, in cells of 32.
///
/// Memory is taken by `reserve` alone; all other calls work in the cells that are there.
#[derive(Drop)]
pub struct Region {
    cells: Vec<Cell>,
    /// The first free cell, where there is one.
    free: u32,
    /// How many cells are free.
    spare: usize,
}

impl Model for Region {
    ghost use Rattle.octet_region.specs.Shape.{stored_in, IsIntact};
    ghost use Rattle.octet_region.specs.Stored.{Stored, stored_code};

    ghost Value = { Stored };

    ghost coded = { stored_code };

    ghost view = { λ r. stored_in r.cells.items r.spare };

    ghost invariant = { λ r. IsIntact r.cells.items r.free r.spare };
}

impl Region {
    /// A region that holds nothing, and has no cell.
    pub fn new(alloc: Global) -> Region
        ensures { result ≡ record { held = map.empty; spare = 0; cells = 0 } }
    {
        Region {
            cells: Vec::new(alloc),
            free: 0,
            spare: 0,
        }
    }

    /// How many cells are free.
    pub fn spare(&self) -> usize
        ensures { result ≡ self.now.spare }
    {
        self.spare
    }

    /// How many cells there are, free or not. The handles that are live are below it.
    pub fn cells(&self) -> usize
        ensures cells { result ≡ self.now.cells }
        ensures most { result < 2 ^ 27 }
        ensures spare { self.now.spare ≤ result }
        ensures below { (handle : ℕ) (octets : List ℕ)
            → map.get self.now.held handle ≡ Some octets → handle < result }
    {
        self.cells.len()
    }

    /// Makes so many cells free, where there aren't as many. What is held stays, and where it
    /// answers OutOfMemory so does what is free.
    ///
    /// It never gives room back. A region has fewer than 2^27 cells, so four gibibytes of octets;
    /// beyond that the answer is OutOfMemory too.
    pub fn reserve(&mut self, cells: usize) -> Result<(), OutOfMemory>
        ensures held { self.new.held ≡ self.old.held }
        ensures ready { cells ≤ self.old.spare → IsOk result }
        ensures spare { MatchResult result (λ _. self.new.spare ≡ max self.old.spare cells)
            (λ _. self.new.spare ≡ self.old.spare) }
        ensures cells { self.new.cells + self.old.spare ≡ self.old.cells + self.new.spare }
    {
        if cells <= self.spare {
            return Ok(());
        }
        let more = cells - self.spare;
        if more > MAX_CELLS - self.cells.len() {
            return Err(OutOfMemory);
        }
        if !make_room(&mut self.cells, more) {
            return Err(OutOfMemory);
        }
        self.free = give_cells(&mut self.cells, self.free, self.spare, more);
        self.spare = cells;
        Ok(())
    }

    /// Keeps octets in free cells, under a handle that wasn't live. As many cells must be free as
    /// `cells_for` says of these octets.
    pub fn put(&mut self, octets: &[u8]) -> Handle
        requires { cells_for (length octets.now) ≤ self.old.spare }
        ensures fresh { map.get self.old.held result ≡ None }
        ensures put { self.new ≡ record self.old {
          held = map.insert self.old.held result octets.now;
          spare = self.old.spare - cells_for (length octets.now);
        } }

        // The same by handles.
        ensures here { map.get self.new.held result ≡ Some octets.now }
        ensures others { (other : ℕ) → other ≢ result
            → map.get self.new.held other ≡ map.get self.old.held other }
        ensures below { result < self.old.cells }
    {
        let first = self.free;
        self.free = put_along(self.cells.as_mut_slice(), first, self.spare, octets);
        self.spare -= cells_for(octets.len());
        Handle { first }
    }

    /// Gives the cells of a handle back. `false` where it isn't live.
    pub fn free(&mut self, handle: Handle) -> bool
        ensures freed { Frees (map.get self.old.held handle) self.old handle result self.new }

        // The same by handles.
        ensures gone { map.get self.new.held handle ≡ None }
        ensures others { (other : ℕ) → other ≢ handle
            → map.get self.new.held other ≡ map.get self.old.held other }
    {
        if !is_live(&self.cells, handle.first) {
            return false;
        }
        let count = free_along(
            self.cells.as_mut_slice(),
            handle.first,
            self.free,
            self.spare,
        );
        self.free = handle.first;
        self.spare += count;
        true
    }

    /// How many octets a handle holds, by a step for each 32 of them. None where it isn't live.
    pub fn length(&self, handle: Handle) -> Option<usize>
        ensures { result ≡ length_of (map.get self.now.held handle) }
    {
        size_at(&self.cells, handle.first)
    }

    /// The first octets of a handle, 32 where it holds as many, without a copy. Nothing where it
    /// isn't live.
    pub fn front(&self, handle: Handle) -> &[u8]
        ensures { result.now ≡ front_of (map.get self.now.held handle) }
    {
        front_at(&self.cells, handle.first)
    }

    /// The octets of a handle from a place on, up to the end of the 32 among which the place is,
    /// without a copy. Nothing where the handle isn't live or its octets end before.
    pub fn piece(&self, handle: Handle, place: usize) -> &[u8]
        ensures { result.now ≡ piece_of (map.get self.now.held handle) place }
    {
        piece_at(&self.cells, handle.first, place)
    }

    /// The same up to the end of the 32 behind those, in two parts, one behind the other: from two
    /// places in the octets of one handle this takes less than two pieces.
    pub fn pieces(&self, handle: Handle, place: usize) -> (&[u8], &[u8])
        ensures { result.0.now ++ result.1.now ≡ pieces_of (map.get self.now.held handle) place }
    {
        pieces_at(&self.cells, handle.first, place)
    }

    /// Fills others with the octets of a handle from a place on. `false`, and nothing is written,
    /// where the handle isn't live or its octets end before.
    pub fn read_at(&self, handle: Handle, offset: usize, into: &mut [u8]) -> bool
        ensures { CopiesFrom (map.get self.now.held handle) offset into.old result into.new }
    {
        copy_part(&self.cells, handle.first, offset, into)
    }

    /// Copies the octets of a handle to the front of others, which must be as long, and answers how
    /// many they are. None, and nothing is written, where it isn't live.
    pub fn copy_to(&self, handle: Handle, into: &mut [u8]) -> Option<usize>
        requires { (octets : List ℕ)
            → map.get self.now.held handle ≡ Some octets → length octets ≤ length into.old }
        ensures { Copies (map.get self.now.held handle) into.old result into.new }
    {
        copy_whole(&self.cells, handle.first, into)
    }

    /// Whether the octets of a handle go on with these from a place on. `false` where the handle
    /// isn't live.
    pub fn is_at(&self, handle: Handle, offset: usize, octets: &[u8]) -> bool
        ensures { StandsAt (map.get self.now.held handle) offset octets.now result }
    {
        stand_at(&self.cells, handle.first, offset, octets)
    }

    /// Whether the octets of a handle begin with these. `false` where it isn't live.
    pub fn starts_with(&self, handle: Handle, octets: &[u8]) -> bool
        ensures { StandsAt (map.get self.now.held handle) 0 octets.now result }
    {
        self.is_at(handle, 0, octets)
    }
}
