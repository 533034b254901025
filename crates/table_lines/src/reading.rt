//! The loop over a source.

ghost use Rattle.std.specs.Prelude.{◌≡◌, ◌≤◌, ◌<◌, ◌^◌, ℕ, List, Some, Err, length};
ghost use Rattle.octets.specs.Counts.{Rose};
ghost use Rattle.table_lines.specs.Input.{Gives};
ghost use Rattle.table_lines.specs.Turns.{AddsAll};

use crate::buffer::read_behind;
use crate::waiting::{Taken, add_last, add_waiting};
use geo_latency::Tables;
use octets::{front, zeros};
use r53_io::{Got, Source};
use std::alloc::Global;

/// The octets of the buffer: a line, and one read behind it.
const BUFFER_LEN: usize = 65_536;

/// The octets of input without an end at which it is too long.
const INPUT_LIMIT: u64 = 1 << 40;

/// Why there are no tables.
#[derive(Clone, Copy, Debug, PartialEq, Eq)]
pub enum TablesFault {
    /// The line of this number, from 1, is bad, and none before it is.
    Bad(u64),
    /// The source failed.
    ReadFault,
    /// 2^40 octets were read without the source's end.
    TooLong,
    OutOfMemory,
}

/// Reads all lines of the tables from a source.
///
/// At `Bad` the source was read as far as that line, or beyond it.
pub fn read_tables<S: Source>(alloc: Global, source: &mut S) -> Result<Tables, TablesFault>
    // What comes of all octets, where the source tells what it has left.
    ensures reads { (input : List ℕ) → S.left source.old ≡ Some input
        → Gives input (S.left source.new) result }

    // A read fault is told only where the source's count rose.
    ensures counts { S.faults source.old ≤ S.faults source.new }
    ensures failed { result ≡ Err TablesFault.ReadFault
        → Rose (S.faults source.old) (S.faults source.new) }
{
    let Ok(mut buffer) = zeros(alloc, BUFFER_LEN) else {
        return Err(TablesFault::OutOfMemory);
    };
    let mut tables = Tables::new(alloc);
    match add_all(
        alloc,
        source,
        buffer.as_mut_slice(),
        &mut tables,
        INPUT_LIMIT,
    ) {
        Added::Whole => Ok(tables),
        Added::Bad(number) => Err(TablesFault::Bad(number)),
        Added::ReadFault => Err(TablesFault::ReadFault),
        Added::TooLong => Err(TablesFault::TooLong),
        Added::OutOfMemory => Err(TablesFault::OutOfMemory),
    }
}

/// What came of all lines.
#[derive(Clone, Copy, Debug, PartialEq, Eq)]
pub(crate) enum Added {
    Whole,
    Bad(u64),
    ReadFault,
    TooLong,
    OutOfMemory,
}

/// Adds the rows of all lines of a source, of at most so many octets.
fn add_all<S: Source>(
    alloc: Global,
    source: &mut S,
    buffer: &mut [u8],
    tables: &mut Tables,
    most: u64,
) -> Added
    requires room { 4096 < length buffer.old }
    requires most { most < 2 ^ 63 }
    ensures adds { (input : List ℕ) → S.left source.old ≡ Some input
        → AddsAll most tables.old input (S.left source.new) result tables.new }
    ensures counts { S.faults source.old ≤ S.faults source.new }
    ensures failed { result ≡ Added.ReadFault → Rose (S.faults source.old) (S.faults source.new) }
{
    let mut len = 0;
    let mut number = 1;
    let mut budget = most;
    while budget > 0 {
        match read_behind(source, buffer, len, budget) {
            Got::Bytes(n) => {
                if n == 0 {
                    return add_last(alloc, tables, front(buffer, len), number);
                }
                budget -= n as u64;
                match add_waiting(alloc, tables, buffer, len + n, number) {
                    Taken::Waits(rest, next) => {
                        len = rest;
                        number = next;
                    }
                    Taken::Bad(number) => return Added::Bad(number),
                    Taken::OutOfMemory => return Added::OutOfMemory,
                }
            }
            Got::Failed => return Added::ReadFault,
        }
    }
    Added::TooLong
}
