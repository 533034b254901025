//! Octets of a chain where they stand: their number, some of them lent, compared and copied.

ghost use Rattle.std.specs.Prelude.{◌≡◌, ◌≤◌, ◌<◌, ◌+◌, ◌-◌, ◌%◌, ◌++◌, ℕ, List, drop, take, length};
ghost use Rattle.std.specs.Prelude.{IsTrue, ◌↔◌, None, Some, false};
ghost use Rattle.octet_region.specs.Cells.{begin_at, number_at};
ghost use Rattle.octet_region.specs.Chains.{octets_in};
ghost use Rattle.octet_region.specs.Shape.{octets_of, AreWhole, IsChain};
ghost use Rattle.octet_region.specs.Stored.{Copies, CopiesFrom, StandsAt, front_of, length_of, piece_of};
ghost use Rattle.octet_region.specs.Stored.{pieces_of};

use crate::cells::{CELL, Cell, count_of, goes_on, is_same, link_at, link_of, next_of, octets_at};
use octets::{behind, front, put_at};

/// Whether the octets of a handle begin in a cell.
#[inline(always)]
pub(crate) fn is_live(cells: &[Cell], first: u32) -> bool
    requires { AreWhole cells.now }
    ensures begins { IsTrue result ↔ (begin_at cells.now first ≡ 1) }
    ensures chain { IsTrue result → IsChain cells.now first }
    ensures some { IsTrue result
        → octets_of cells.now first ≡ Some (octets_in cells.now first) }
    ensures none { result ≡ false → octets_of cells.now first ≡ None }
{
    link_of(cells, first) % 2 == 1
}

/// How many octets the chain of a handle holds. None where none begins in this cell.
pub(crate) fn size_at(cells: &[Cell], first: u32) -> Option<usize>
    requires { AreWhole cells.now }
    ensures { result ≡ length_of (octets_of cells.now first) }
{
    if !is_live(cells, first) {
        return None;
    }
    Some(size_along(cells, first))
}

/// The same of a chain.
fn size_along(cells: &[Cell], first: u32) -> usize
    requires { IsChain cells.now first }
    ensures { result ≡ length (octets_in cells.now first) }
{
    let mut cell = first;
    let mut size = 0;
    while goes_on(link_at(cells, cell)) {
        cell = next_of(link_at(cells, cell));
        size += CELL;
    }
    size + count_of(link_at(cells, cell))
}

/// The octets of a handle that stand in its first cell.
pub(crate) fn front_at(cells: &[Cell], first: u32) -> &[u8]
    requires { AreWhole cells.now }
    ensures { result.now ≡ front_of (octets_of cells.now first) }
{
    if !is_live(cells, first) {
        return &[];
    }
    front_in(cells, first)
}

/// The same of a chain.
#[inline(always)]
fn front_in(cells: &[Cell], first: u32) -> &[u8]
    requires { IsChain cells.now first }
    ensures { result.now ≡ take 32 (octets_in cells.now first) }
{
    front(octets_at(cells, first), count_of(link_at(cells, first)))
}

/// The octets of a handle from a place on, up to the end of the cell in which the place is.
#[inline(always)]
pub(crate) fn piece_at(cells: &[Cell], first: u32, place: usize) -> &[u8]
    requires { AreWhole cells.now }
    ensures { result.now ≡ piece_of (octets_of cells.now first) place }
{
    if !is_live(cells, first) {
        return &[];
    }
    piece_within(cells, first, place)
}

/// The same of a chain.
#[inline(always)]
fn piece_within(cells: &[Cell], first: u32, place: usize) -> &[u8]
    requires { IsChain cells.now first }
    ensures { result.now ≡ take (32 - place % 32) (drop place (octets_in cells.now first)) }
{
    let (cell, from) = skip_to(cells, first, place);
    piece_from(cells, cell, from)
}

/// The same from a place in the first cell of a chain on, or behind all of them.
#[inline(always)]
fn piece_from(cells: &[Cell], first: u32, from: usize) -> &[u8]
    requires chain { IsChain cells.now first }
    requires near { 32 ≤ from → number_at cells.now first ≤ 32 }
    ensures { result.now ≡ take (32 - from % 32) (drop from (octets_in cells.now first)) }
{
    let count = count_of(link_at(cells, first));
    if from >= count {
        return &[];
    }
    behind(front(octets_at(cells, first), count), from)
}

/// The octets of a handle from a place on, up to the end of the cell behind the one in which the
/// place is: those in the one cell, and those in the other.
#[inline(always)]
pub(crate) fn pieces_at(cells: &[Cell], first: u32, place: usize) -> (&[u8], &[u8])
    requires { AreWhole cells.now }
    ensures { result.0.now ++ result.1.now ≡ pieces_of (octets_of cells.now first) place }
{
    if !is_live(cells, first) {
        return (&[], &[]);
    }
    pieces_within(cells, first, place)
}

/// The same of a chain.
#[inline(always)]
fn pieces_within(cells: &[Cell], first: u32, place: usize) -> (&[u8], &[u8])
    requires { IsChain cells.now first }
    ensures { result.0.now ++ result.1.now
        ≡ take (64 - place % 32) (drop place (octets_in cells.now first)) }
{
    let (cell, from) = skip_to(cells, first, place);
    pieces_from(cells, cell, from)
}

/// The same from a place in the first cell of a chain on, or behind all of them.
#[inline(always)]
fn pieces_from(cells: &[Cell], first: u32, from: usize) -> (&[u8], &[u8])
    requires chain { IsChain cells.now first }
    requires near { 32 ≤ from → number_at cells.now first ≤ 32 }
    ensures { result.0.now ++ result.1.now
        ≡ take (64 - from % 32) (drop from (octets_in cells.now first)) }
{
    let link = link_at(cells, first);
    if !goes_on(link) {
        return (piece_from(cells, first, from), &[]);
    }
    (
        behind(octets_at(cells, first), from),
        front_in(cells, next_of(link)),
    )
}

/// Whether the octets of a handle go on with others from a place on.
pub(crate) fn stand_at(cells: &[Cell], first: u32, offset: usize, octets: &[u8]) -> bool
    requires { AreWhole cells.now }
    ensures { StandsAt (octets_of cells.now first) offset octets.now result }
{
    if !is_live(cells, first) {
        return false;
    }
    is_within(cells, first, offset, octets)
}

/// The same of a chain.
fn is_within(cells: &[Cell], first: u32, offset: usize, octets: &[u8]) -> bool
    requires { IsChain cells.now first }
    ensures { IsTrue result
        ↔ (take (length octets.now) (drop offset (octets_in cells.now first)) ≡ octets.now) }
{
    if octets.len() == 0 {
        return true;
    }
    let (cell, from) = skip_to(cells, first, offset);
    if from >= CELL {
        return false;
    }
    compare_along(cells, cell, from, octets)
}

/// Copies the octets of a handle to the front of others, and answers how many they are.
pub(crate) fn copy_whole(cells: &[Cell], first: u32, into: &mut [u8]) -> Option<usize>
    requires whole { AreWhole cells.now }
    requires room { (octets : List ℕ)
        → octets_of cells.now first ≡ Some octets → length octets ≤ length into.old }
    ensures { Copies (octets_of cells.now first) into.old result into.new }
{
    if !is_live(cells, first) {
        return None;
    }
    Some(copy_run(cells, first, into))
}

/// The same of a chain.
fn copy_run(cells: &[Cell], first: u32, into: &mut [u8]) -> usize
    requires chain { IsChain cells.now first }
    requires room { length (octets_in cells.now first) ≤ length into.old }
    ensures count { result ≡ length (octets_in cells.now first) }
    ensures copied { into.new ≡ octets_in cells.now first ++ drop result into.old }
{
    let mut cell = first;
    let mut at = 0;
    let mut link = link_at(cells, first);
    while goes_on(link) {
        put_at(into, at, octets_at(cells, cell));
        cell = next_of(link);
        link = link_at(cells, cell);
        at += CELL;
    }
    let count = count_of(link);
    put_at(into, at, front(octets_at(cells, cell), count));
    at + count
}

/// Fills others with the octets of a handle from a place on. `false` where there are not as many.
pub(crate) fn copy_part(cells: &[Cell], first: u32, offset: usize, into: &mut [u8]) -> bool
    requires { AreWhole cells.now }
    ensures { CopiesFrom (octets_of cells.now first) offset into.old result into.new }
{
    if !is_live(cells, first) {
        return false;
    }
    copy_within(cells, first, offset, into)
}

/// The same of a chain.
fn copy_within(cells: &[Cell], first: u32, offset: usize, into: &mut [u8]) -> bool
    requires { IsChain cells.now first }
    ensures { CopiesFrom (Some (octets_in cells.now first)) offset into.old result into.new }
{
    if into.len() == 0 {
        return offset <= size_along(cells, first);
    }
    let (cell, from) = skip_to(cells, first, offset);
    if from >= CELL {
        return false;
    }
    if !reaches(cells, cell, from, into.len()) {
        return false;
    }
    copy_along(cells, cell, from, into);
    true
}

/// The cell of a chain in which the octet of a place stands, and how many octets of the cell stand
/// before it; or the last cell, and 32 or more, where the octets end before.
#[inline(always)]
fn skip_to(cells: &[Cell], first: u32, place: usize) -> (u32, usize)
    requires { IsChain cells.now first }
    ensures chain { IsChain cells.now result.0 }
    ensures near { 32 ≤ result.1 → number_at cells.now result.0 ≤ 32 }
    ensures place { result.1 % 32 ≡ place % 32 }
    ensures count { length (octets_in cells.now result.0) + place
        ≡ length (octets_in cells.now first) + result.1 }
    ensures same { drop place (octets_in cells.now first)
        ≡ drop result.1 (octets_in cells.now result.0) }
{
    if place < CELL {
        return (first, place);
    }
    skip_far(cells, first, place)
}

/// The same by the loop.
// Apart, so that places in the first cell pass by the loop.
#[inline(never)]
fn skip_far(cells: &[Cell], first: u32, place: usize) -> (u32, usize)
    requires { IsChain cells.now first }
    ensures chain { IsChain cells.now result.0 }
    ensures near { 32 ≤ result.1 → number_at cells.now result.0 ≤ 32 }
    ensures place { result.1 % 32 ≡ place % 32 }
    ensures count { length (octets_in cells.now result.0) + place
        ≡ length (octets_in cells.now first) + result.1 }
    ensures same { drop place (octets_in cells.now first)
        ≡ drop result.1 (octets_in cells.now result.0) }
{
    let mut cell = first;
    let mut from = place;
    while from >= CELL {
        let link = link_at(cells, cell);
        if !goes_on(link) {
            return (cell, from);
        }
        cell = next_of(link);
        from -= CELL;
    }
    (cell, from)
}

/// Whether so many octets stand in a chain from a place in its first cell on.
fn reaches(cells: &[Cell], first: u32, offset: usize, count: usize) -> bool
    requires chain { IsChain cells.now first }
    requires near { offset < 32 }
    ensures { IsTrue result ↔ (offset + count ≤ length (octets_in cells.now first)) }
{
    let mut cell = first;
    let mut from = offset;
    let mut left = count;
    while left > CELL - from {
        let link = link_at(cells, cell);
        if !goes_on(link) {
            return false;
        }
        cell = next_of(link);
        left -= CELL - from;
        from = 0;
    }
    from + left <= count_of(link_at(cells, cell))
}

/// Whether the octets of a chain go on with others from a place in its first cell on.
fn compare_along(cells: &[Cell], first: u32, offset: usize, octets: &[u8]) -> bool
    requires chain { IsChain cells.now first }
    requires near { offset < 32 }
    requires some { 0 < length octets.now }
    ensures { IsTrue result
        ↔ (take (length octets.now) (drop offset (octets_in cells.now first)) ≡ octets.now) }
{
    let mut cell = first;
    let mut from = offset;
    let mut rest = octets;
    while rest.len() > CELL - from {
        let link = link_at(cells, cell);
        if !goes_on(link) {
            return false;
        }
        if !is_same(
            behind(octets_at(cells, cell), from),
            front(rest, CELL - from),
        ) {
            return false;
        }
        rest = behind(rest, CELL - from);
        cell = next_of(link);
        from = 0;
    }
    if from + rest.len() > count_of(link_at(cells, cell)) {
        return false;
    }
    is_same(
        front(behind(octets_at(cells, cell), from), rest.len()),
        rest,
    )
}

/// Fills others with the octets of a chain from a place in its first cell on.
fn copy_along(cells: &[Cell], first: u32, offset: usize, into: &mut [u8])
    requires chain { IsChain cells.now first }
    requires near { offset < 32 }
    requires fits { offset + length into.old ≤ length (octets_in cells.now first) }
    ensures { into.new ≡ take (length into.old) (drop offset (octets_in cells.now first)) }
{
    let mut cell = first;
    let mut from = offset;
    let mut at = 0;
    while into.len() - at > CELL - from {
        put_at(into, at, behind(octets_at(cells, cell), from));
        at += CELL - from;
        cell = next_of(link_at(cells, cell));
        from = 0;
    }
    let count = into.len() - at;
    put_at(into, at, front(behind(octets_at(cells, cell), from), count));
}
