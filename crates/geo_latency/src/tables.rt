//! The tables that tell where clients are and how far from regions, line by line.

ghost use Rattle.std.specs.Prelude.{◌≡◌, []};
ghost use Rattle.geo_latency.specs.Tables.{Adds, AddsRow, refused};

use crate::latencies::Latencies;
use crate::lines::{Line, read_line};
use crate::location::Location;
use prefix_text::{InsertFault, IpPrefix, IpTable};
use std::alloc::Global;

/// What a line of the tables is answered.
#[derive(Clone, Copy, Debug, PartialEq, Eq)]
pub enum TableLine {
    /// Its row was added.
    Added,
    /// It is empty, or begins with `#`.
    Skipped,
    /// It is no such line, its kind has a row of this prefix, or 100,000 rows.
    Bad,
    /// Its row would have been added, but there was no memory for it.
    OutOfMemory,
}

/// The rows that tell where clients are, and those that tell their latencies to regions.
#[derive(Drop)]
pub struct Tables {
    pub places: IpTable<Location>,
    pub latencies: IpTable<Latencies>,
}

impl Tables {
    /// Tables without rows.
    pub fn new(alloc: Global) -> Tables
        ensures { result ≡ record { places = []; latencies = [] } }
    {
        Tables {
            places: IpTable::new(alloc),
            latencies: IpTable::new(alloc),
        }
    }

    /// Adds the row of a line, which comes without the byte that ends it (FORMATS, Tables of
    /// places and latencies).
    ///
    /// Each answer but `Added` leaves the tables as they were.
    pub fn add_line(&mut self, alloc: Global, line: &[u8]) -> TableLine
        ensures { Adds self.old line.now result self.new }
    {
        let read = match read_line(alloc, line) {
            Ok(read) => read,
            Err(prefix) => return refused(&self.latencies, prefix),
        };
        match read {
            Line::Skipped => TableLine::Skipped,
            Line::Place(prefix, location) => add_row(&mut self.places, prefix, location),
            Line::Latency(prefix, latencies) => add_row(&mut self.latencies, prefix, latencies),
            Line::Bad => TableLine::Bad,
        }
    }
}

/// The answer for a row for whose value there is no memory: a bad row is told as such.
fn refused<V>(table: &IpTable<V>, prefix: IpPrefix) -> TableLine
    ensures { result ≡ refused table.now prefix }
{
    if table.takes(prefix) {
        return TableLine::OutOfMemory;
    }
    TableLine::Bad
}

/// Adds a row to one of the tables.
fn add_row<V: Drop>(table: &mut IpTable<V>, prefix: IpPrefix, value: V) -> TableLine
    ensures { AddsRow table.old prefix value result table.new }
{
    match table.insert(prefix, value) {
        Ok(()) => TableLine::Added,
        Err(InsertFault::Duplicate(_)) => TableLine::Bad,
        Err(InsertFault::Full(_)) => TableLine::Bad,
        Err(InsertFault::OutOfMemory(_)) => TableLine::OutOfMemory,
    }
}
