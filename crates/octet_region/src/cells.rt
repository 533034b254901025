//! One cell of a list: its octets, and the link that says what stands behind them.

ghost use Rattle.std.specs.Prelude.{◌≡◌, ◌≤◌, ◌<◌, ◌+◌, ◌-◌, ◌/◌, ◌^◌, length, min, IsTrue, ◌↔◌};
ghost use Rattle.octet_region.specs.Cells.{cells_for, link_at, number_at, begin_at, next_at, octets_at};
ghost use Rattle.octet_region.specs.Cells.{write_at, number_as, begin_as};

use octets::fill_front;

/// How many octets a cell holds.
pub(crate) const CELL: usize = 32;

/// The number of the first cell, where it stands behind another one.
pub(crate) const FIRST: u32 = 33;

/// The link of a last cell that begins a chain too and holds 32 octets: links above are of cells
/// that have another one behind them.
const LAST: u32 = 65;

/// Octets of a chain.
#[derive(Clone, Copy)]
pub(crate) struct Cell {
    pub octets: [u8; 32],
    /// Twice a number, and one more where the octets of a handle begin here. Up to 32 the number
    /// is how many octets the cell holds, which is the last one of its chain then; above it is 33
    /// more than the cell behind this one.
    pub link: u32,
}

/// How many cells hold so many octets: rounded up, and at least one.
pub fn cells_for(length: usize) -> usize
    ensures { result ≡ cells_for length }
{
    if length <= CELL {
        return 1;
    }
    (length - 1) / CELL + 1
}

/// Whether a cell with this link has another one behind it.
#[inline(always)]
pub(crate) fn goes_on(link: u32) -> bool
    ensures { IsTrue result ↔ (32 < link / 2) }
{
    link > LAST
}

/// The cell behind one with this link.
#[inline(always)]
pub(crate) fn next_of(link: u32) -> u32
    requires { 32 < link / 2 }
    ensures { result ≡ link / 2 - 33 }
{
    link / 2 - FIRST
}

/// How many octets a cell with this link holds.
#[inline(always)]
pub(crate) fn count_of(link: u32) -> usize
    ensures { result ≡ min (link / 2) 32 }
{
    ((link / 2) as usize).min(CELL)
}

/// The link of a cell.
#[inline(always)]
pub(crate) fn link_at(cells: &[Cell], cell: u32) -> u32
    requires { cell < length cells.now }
    ensures { result ≡ link_at cells.now cell }
{
    cells[cell as usize].link
}

/// The link of a cell, and 0 where it isn't there.
#[inline(always)]
pub(crate) fn link_of(cells: &[Cell], cell: u32) -> u32
    ensures { result ≡ link_at cells.now cell }
{
    match cells.get(cell as usize) {
        None => 0,
        Some(found) => found.link,
    }
}

/// The octets of a cell.
#[inline(always)]
pub(crate) fn octets_at(cells: &[Cell], cell: u32) -> &[u8]
    requires { cell < length cells.now }
    ensures value { result.now ≡ octets_at cells.now cell }
    ensures length { length result.now ≡ 32 }
{
    &cells[cell as usize].octets
}

/// The cell behind a cell, and the first one where that is the last of its chain.
pub(crate) fn next_at(cells: &[Cell], cell: u32) -> u32
    requires { cell < length cells.now }
    ensures next { result ≡ next_at cells.now cell }
    ensures fits { result + 33 < 2 ^ 31 }
{
    (cells[cell as usize].link / 2).saturating_sub(FIRST)
}

/// Writes octets to the front of a cell.
pub(crate) fn write_at(cells: &mut [Cell], cell: u32, piece: &[u8])
    requires within { cell < length cells.old }
    requires fits { length piece.now ≤ 32 }
    ensures { cells.new ≡ write_at cells.old cell piece.now }
{
    let place = &mut cells[cell as usize];
    fill_front(&mut place.octets, piece);
}

/// Sets the number of a cell.
pub(crate) fn number_as(cells: &mut [Cell], cell: u32, number: u32)
    requires within { cell < length cells.old }
    requires fits { number < 2 ^ 31 }
    ensures { cells.new ≡ number_as cells.old cell number }
{
    let place = &mut cells[cell as usize];
    place.link = 2 * number + place.link % 2;
}

/// Notes whether the octets of a handle begin in a cell, by 1 or 0.
pub(crate) fn begin_as(cells: &mut [Cell], cell: u32, begin: u32)
    requires within { cell < length cells.old }
    requires fits { begin ≤ 1 }
    ensures { cells.new ≡ begin_as cells.old cell begin }
{
    let place = &mut cells[cell as usize];
    place.link = 2 * (place.link / 2) + begin;
}

/// Whether octets are the same.
pub(crate) fn is_same(some: &[u8], others: &[u8]) -> bool
    ensures { IsTrue result ↔ (some.now ≡ others.now) }
{
    some == others
}
