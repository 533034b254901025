//! The lines of the octets that wait, and their rows.

ghost use Rattle.std.specs.Prelude.{◌≡◌, ◌+◌, ◌≤◌, ◌<◌, ◌^◌, length, take, None, IfSome};
ghost use Rattle.line_splitting.specs.Judging.{end_place};
ghost use Rattle.table_lines.specs.Turns.{TakesFirst, TakesLines, TakesAll, TakesLast};

use crate::buffer::move_to_front;
use crate::reading::Added;
use geo_latency::{TableLine, Tables};
use memchr::memchr;
use octets::{behind, front};
use std::alloc::Global;

/// The most octets of a line.
const MAX_LINE: usize = 4_096;

/// What came of the first line that waits.
#[derive(Clone, Copy, Debug, PartialEq, Eq)]
pub(crate) enum First {
    /// It doesn't wait whole.
    Unended,
    /// It was taken, with its 0x0A so many octets.
    Line(usize),
    Bad,
    OutOfMemory,
}

/// What came of the lines that wait.
#[derive(Clone, Copy, Debug, PartialEq, Eq)]
pub(crate) enum Taken {
    /// So many octets wait, which begin the line of this number.
    Waits(usize, u64),
    Bad(u64),
    OutOfMemory,
}

/// Adds the rows of the lines that wait whole, and moves what waits behind them to the front.
pub(crate) fn add_waiting(
    alloc: Global,
    tables: &mut Tables,
    buffer: &mut [u8],
    len: usize,
    number: u64,
) -> Taken
    requires within { len ≤ length buffer.old }
    requires numbers { number + len < 2 ^ 64 }
    ensures takes { TakesAll tables.old (take len buffer.old) number result tables.new buffer.new }
    ensures size { length buffer.new ≡ length buffer.old }
{
    match take_lines(alloc, tables, front(buffer, len), number) {
        Taken::Waits(start, next) => Taken::Waits(move_to_front(buffer, start, len), next),
        Taken::Bad(number) => Taken::Bad(number),
        Taken::OutOfMemory => Taken::OutOfMemory,
    }
}

/// Adds the rows of the lines that wait whole, and tells where what waits behind them begins.
fn take_lines(alloc: Global, tables: &mut Tables, waiting: &[u8], first: u64) -> Taken
    requires { first + length waiting.now < 2 ^ 64 }
    ensures { TakesLines tables.old waiting.now first result tables.new }
{
    let mut start = 0;
    let mut number = first;
    loop {
        match take_first(alloc, tables, behind(waiting, start)) {
            First::Unended => return Taken::Waits(start, number),
            First::Line(n) => {
                start += n;
                number += 1;
            }
            First::Bad => return Taken::Bad(number),
            First::OutOfMemory => return Taken::OutOfMemory,
        }
    }
}

/// Adds the row of the first line that waits, where that waits whole.
fn take_first(alloc: Global, tables: &mut Tables, waiting: &[u8]) -> First
    ensures { TakesFirst tables.old waiting.now result tables.new }
{
    let Some(place) = end_place(waiting) else {
        return judge_open(waiting);
    };
    match tables.add_line(alloc, front(waiting, place)) {
        TableLine::Added => First::Line(place + 1),
        TableLine::Skipped => First::Line(place + 1),
        TableLine::Bad => First::Bad,
        TableLine::OutOfMemory => First::OutOfMemory,
    }
}

/// What comes of a line that has no end yet: it is bad where it is too long already.
fn judge_open(waiting: &[u8]) -> First
    requires { end_place waiting.now ≡ None }
    ensures { (tables : Tables) → TakesFirst tables waiting.now result tables }
{
    if waiting.len() > MAX_LINE {
        return First::Bad;
    }
    First::Unended
}

/// The place of the first 0x0A.
fn end_place(bytes: &[u8]) -> Option<usize>
    ensures place { result ≡ end_place bytes.now }
    ensures inside { IfSome result (λ k. k < length bytes.now) }
{
    match memchr(b'\n', bytes) {
        Some(place) => Some(place),
        None => None,
    }
}

/// Adds the row of the last line, which has no 0x0A.
pub(crate) fn add_last(alloc: Global, tables: &mut Tables, line: &[u8], number: u64) -> Added
    ensures { TakesLast tables.old line.now number result tables.new }
{
    match tables.add_line(alloc, line) {
        TableLine::Added => Added::Whole,
        TableLine::Skipped => Added::Whole,
        TableLine::Bad => Added::Bad(number),
        TableLine::OutOfMemory => Added::OutOfMemory,
    }
}
