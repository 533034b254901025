//! Chains of cells: octets written along one, and its cells taken and given back.

ghost use Rattle.std.specs.Prelude.{◌≡◌, ◌≤◌, ◌<◌, ◌+◌, ◌-◌, ◌*◌, ◌^◌, ℕ, List, length, None, Some};
ghost use Rattle.octet_region.specs.Cells.{cells_for, next_at, begin_at};
ghost use Rattle.octet_region.specs.Chains.{jump, IsInside, written, steps_in};
ghost use Rattle.octet_region.specs.Shape.{octets_of, IsChain, IsIntact};

use crate::cells::{
    CELL, Cell, FIRST, begin_as, goes_on, link_at, next_at, next_of, number_as, write_at,
};
use octets::{behind, front};

/// Writes octets to the chain from a cell on, and answers the last cell written, and how many
/// octets it holds.
fn write_along(cells: &mut [Cell], first: u32, octets: &[u8]) -> (u32, usize)
    requires { IsInside (next_at cells.old) (length cells.old) (cells_for (length octets.now)) first }
    ensures cells { cells.new
        ≡ written cells.old (cells_for (length octets.now)) first octets.now }
    ensures last { result.0
        ≡ jump (next_at cells.old) (cells_for (length octets.now) - 1) first }
    ensures count { result.1 + 32 * (cells_for (length octets.now) - 1) ≡ length octets.now }
    ensures few { result.1 ≤ 32 }
{
    let mut cell = first;
    let mut rest = octets;
    while rest.len() > CELL {
        write_at(cells, cell, front(rest, CELL));
        cell = next_at(cells, cell);
        rest = behind(rest, CELL);
    }
    write_at(cells, cell, rest);
    (cell, rest.len())
}

/// The last cell of a chain, and how many cells the chain has.
fn last_along(cells: &[Cell], first: u32) -> (u32, usize)
    requires { IsChain cells.now first }
    ensures last { result.0 ≡ jump (next_at cells.now) (steps_in cells.now first) first }
    ensures count { result.1 ≡ steps_in cells.now first + 1 }
{
    let mut cell = first;
    let mut count = 1;
    let mut link = link_at(cells, first);
    while goes_on(link) {
        cell = next_of(link);
        count += 1;
        link = link_at(cells, cell);
    }
    (cell, count)
}

/// Puts octets into the first free cells, and answers the first one that is free then.
pub(crate) fn put_along(cells: &mut [Cell], free: u32, spare: usize, octets: &[u8]) -> u32
    requires sound { IsIntact cells.old free spare }
    requires enough { cells_for (length octets.now) ≤ spare }
    ensures sound { IsIntact cells.new result (spare - cells_for (length octets.now)) }
    ensures below { free < length cells.old }
    ensures fresh { octets_of cells.old free ≡ None }
    ensures put { octets_of cells.new free ≡ Some octets.now }
    ensures others { (other : ℕ) → (other ≡ free → ⊥)
        → octets_of cells.new other ≡ octets_of cells.old other }
{
    let (last, count) = write_along(cells, free, octets);
    let next = next_at(cells, last);
    number_as(cells, last, count as u32);
    begin_as(cells, free, 1);
    next
}

/// Puts the chain of a handle in front of the free cells, and answers how many cells it has.
pub(crate) fn free_along(cells: &mut [Cell], first: u32, free: u32, spare: usize) -> usize
    requires sound { IsIntact cells.old free spare }
    requires live { begin_at cells.old first ≡ 1 }
    ensures sound { IsIntact cells.new first (spare + result) }
    ensures count { (octets : List ℕ) → octets_of cells.old first ≡ Some octets
        → result ≡ cells_for (length octets) }
    ensures gone { octets_of cells.new first ≡ None }
    ensures others { (other : ℕ) → (other ≡ first → ⊥)
        → octets_of cells.new other ≡ octets_of cells.old other }
{
    let (last, count) = last_along(cells, first);
    number_as(cells, last, free + FIRST);
    begin_as(cells, first, 0);
    count
}
