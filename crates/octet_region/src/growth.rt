//! More cells, and the memory that they take.

ghost use Rattle.std.specs.Prelude.{◌≡◌, ◌≤◌, ◌<◌, ◌+◌, ◌^◌, ◌++◌, ◌∷◌, [], ℕ, length, IsTrue};
ghost use Rattle.std.specs.Prelude.{vec_len, vec_capacity};
ghost use Rattle.octet_region.specs.Cells.{new_cell};
ghost use Rattle.octet_region.specs.Shape.{octets_of, IsIntact};

use crate::cells::{Cell, FIRST};

/// Takes memory for so many more cells, where there is none: for these alone, or for a sixteenth
/// of those that are there, whichever is more. `false` where there is none to be had.
pub(crate) fn make_room(cells: &mut Vec<Cell>, more: usize) -> bool
    ensures items { cells.new.items ≡ cells.old.items }
    ensures len { vec_len cells.new ≡ vec_len cells.old }
    ensures room { IsTrue result → vec_len cells.new + more ≤ vec_capacity cells.new }
{
    if more <= cells.capacity() - cells.len() {
        return true;
    }
    let ample = more.max(cells.len() / 16);
    if cells.reserve_exact(ample).is_ok() {
        return true;
    }
    cells.reserve_exact(more).is_ok()
}

/// Adds free cells in front of the others, and answers the first one.
pub(crate) fn give_cells(cells: &mut Vec<Cell>, free: u32, spare: usize, more: usize) -> u32
    requires sound { IsIntact cells.old.items free spare }
    requires room { vec_len cells.old + more ≤ vec_capacity cells.old }
    requires few { vec_len cells.old + more < 2 ^ 27 }
    ensures sound { IsIntact cells.new.items result (spare + more) }
    ensures count { length cells.new.items ≡ length cells.old.items + more }
    ensures same { (handle : ℕ)
        → octets_of cells.new.items handle ≡ octets_of cells.old.items handle }
{
    let mut free = free;
    for _ in 0..more {
        free = give_cell(cells, free);
    }
    free
}

/// Adds a cell in front of the free ones, and answers its number.
fn give_cell(cells: &mut Vec<Cell>, free: u32) -> u32
    requires room { vec_len cells.old < vec_capacity cells.old }
    requires few { vec_len cells.old < 2 ^ 27 }
    requires fits { free + 33 < 2 ^ 31 }
    ensures cells { cells.new.items ≡ cells.old.items ++ new_cell free ∷ [] }
    ensures room { vec_capacity cells.new ≡ vec_capacity cells.old }
    ensures length { vec_len cells.new ≡ vec_len cells.old + 1 }
    ensures number { result ≡ length cells.old.items }
{
    let number = cells.len() as u32;
    cells.push_reserved(Cell {
        octets: [0; 32],
        link: 2 * (free + FIRST),
    });
    number
}
