//! What a line of the tables says, read field by field.

ghost use Rattle.std.specs.Prelude.{◌≡◌, IfErr, IfOk, Some};
ghost use Rattle.std.specs.Option.{option_copied};
ghost use Rattle.geo_latency.specs.Lines.{is_skipped, latency_fields, latency_row, latencies_of};
ghost use Rattle.geo_latency.specs.Lines.{later, parts, place_fields, place_row, row_of, said};
ghost use Rattle.geo_latency.specs.Lines.{prefix_of_latencies};
ghost use Rattle.geo_latency.specs.Rows.{location_of_text};
ghost use Rattle.prefix_text.specs.Prefixes.{prefix_of_text};

use crate::latencies::Latencies;
use crate::location::Location;
use crate::pieces::first_piece;
use crate::rows::read_location;
use crate::several::read_latencies;
use prefix_text::{IpPrefix, read_prefix};
use std::alloc::Global;

/// The most bytes of a line.
const MAX_LINE: usize = 4_096;

/// What a line of the tables says.
#[derive(Drop)]
pub(crate) enum Line {
    /// It is empty, or begins with `#`.
    Skipped,
    Place(IpPrefix, Location),
    Latency(IpPrefix, Latencies),
    /// It is no such line.
    Bad,
}

/// What a line says; or the prefix of its latencies, where there is no memory for these.
pub(crate) fn read_line(alloc: Global, line: &[u8]) -> Result<Line, IpPrefix>
    ensures read { IfOk result (λ read. read ≡ said line.now) }
    ensures wanted { IfErr result (λ prefix. Some prefix ≡ prefix_of_latencies (said line.now)) }
{
    if line.len() > MAX_LINE {
        return Ok(Line::Bad);
    }
    if is_skipped(line) {
        return Ok(Line::Skipped);
    }
    read_row(alloc, line)
}

/// Whether a line is empty or begins with `#`.
fn is_skipped(line: &[u8]) -> bool
    ensures { result ≡ is_skipped line.now }
{
    match line {
        [] => true,
        [first, ..] => *first == b'#',
    }
}

/// The row of a line.
fn read_row(alloc: Global, line: &[u8]) -> Result<Line, IpPrefix>
    ensures read { IfOk result (λ read. read ≡ row_of (parts 0x20 line.now)) }
    ensures wanted { IfErr result (λ prefix.
        Some prefix ≡ prefix_of_latencies (row_of (parts 0x20 line.now))) }
{
    let (word, fields) = first_piece(b' ', line);
    if word == b"geo".as_slice() {
        return Ok(read_place(fields));
    }
    if word == b"lat".as_slice() {
        return read_latency(alloc, fields);
    }
    Ok(Line::Bad)
}

/// The row of a place, of the fields behind its first word.
fn read_place(fields: Option<&[u8]>) -> Line
    ensures { result ≡ place_fields (later 0x20 (option_copied fields.entry)) }
{
    let Some(fields) = fields else {
        return Line::Bad;
    };
    let (prefix, location) = first_piece(b' ', fields);
    let Some(location) = location else {
        return Line::Bad;
    };
    place_row(prefix, location)
}

/// The row of a prefix and a location.
fn place_row(prefix: &[u8], location: &[u8]) -> Line
    ensures { result ≡ place_row (prefix_of_text prefix.now) (location_of_text location.now) }
{
    let Some(prefix) = read_prefix(prefix) else {
        return Line::Bad;
    };
    let Some(location) = read_location(location) else {
        return Line::Bad;
    };
    Line::Place(prefix, location)
}

/// The row of latencies, of the fields behind its first word.
fn read_latency(alloc: Global, fields: Option<&[u8]>) -> Result<Line, IpPrefix>
    ensures read { IfOk result (λ read.
        read ≡ latency_fields (later 0x20 (option_copied fields.entry))) }
    ensures wanted { IfErr result (λ prefix. Some prefix
        ≡ prefix_of_latencies (latency_fields (later 0x20 (option_copied fields.entry)))) }
{
    let Some(fields) = fields else {
        return Ok(Line::Bad);
    };
    let (prefix, latencies) = first_piece(b' ', fields);
    let Some(latencies) = latencies else {
        return Ok(Line::Bad);
    };
    let (latencies, more) = first_piece(b' ', latencies);
    if more.is_some() {
        return Ok(Line::Bad);
    }
    latency_row(alloc, prefix, latencies)
}

/// The row of a prefix and latencies.
fn latency_row(alloc: Global, prefix: &[u8], latencies: &[u8]) -> Result<Line, IpPrefix>
    ensures read { IfOk result (λ read. read ≡
        latency_row (prefix_of_text prefix.now) (latencies_of latencies.now)) }
    ensures wanted { IfErr result (λ p. Some p ≡ prefix_of_latencies
        (latency_row (prefix_of_text prefix.now) (latencies_of latencies.now))) }
{
    let Some(prefix) = read_prefix(prefix) else {
        return Ok(Line::Bad);
    };
    match read_latencies(alloc, latencies) {
        Ok(Some(latencies)) => Ok(Line::Latency(prefix, latencies)),
        Ok(None) => Ok(Line::Bad),
        Err(_) => Err(prefix),
    }
}
