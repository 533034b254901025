//! What surrounds a run: the files as they are found, pieces of the input, and calls that fail.

use octets::{OutOfMemory, append};
use prefix_text::read_number;
use r53_disk::Torn;
use scenario_words::{Fault, parted, read_hex};
use std::alloc::Global;

/// What surrounds a run.
#[derive(Drop)]
pub struct Setting {
    /// What a crash left of octets that weren't synced.
    pub torn: Torn,
    /// The octets of each file, where they are given.
    pub a_holds: Option<Vec<u8>>,
    pub b_holds: Option<Vec<u8>>,
    /// The most octets of the input that come at once.
    pub piece: u32,
    /// The numbers of the calls that fail, from 0.
    pub a_fails: Vec<u64>,
    pub b_fails: Vec<u64>,
    pub input_fails: Vec<u64>,
    pub tables_fail: Vec<u64>,
    pub network_fails: Vec<u64>,
    pub output_fails: Vec<u64>,
}

impl Setting {
    /// Nothing fails, and the files are as they were left.
    pub fn new(alloc: Global) -> Setting {
        Setting {
            torn: Torn::Kept,
            a_holds: None,
            b_holds: None,
            piece: 65_536,
            a_fails: Vec::new(alloc),
            b_fails: Vec::new(alloc),
            input_fails: Vec::new(alloc),
            tables_fail: Vec::new(alloc),
            network_fails: Vec::new(alloc),
            output_fails: Vec::new(alloc),
        }
    }
}

/// Takes a setting: `crash lost`, `crash filled 1`, `file a holds HEX`, `pieces of 7`, or `fails a 3`
/// for call 3 of file a, and so on for b, input, tables, network and output.
pub fn take_setting(alloc: Global, text: &[u8], setting: &mut Setting) -> Result<(), Fault> {
    let (word, behind) = parted(text, b' ');
    match word {
        b"crash" => take_crash(behind, setting),
        b"file" => take_file(alloc, behind, setting),
        b"pieces" => take_pieces(behind, setting),
        b"fails" => take_failure(behind, setting),
        _ => Err(Fault::NoSuchForm),
    }
}

/// A number of 32 bits.
fn number_of(digits: &[u8]) -> Result<u32, Fault> {
    match read_number(digits, u32::MAX) {
        Some(number) => Ok(number),
        None => Err(Fault::NoSuchForm),
    }
}

/// Takes what a crash left.
fn take_crash(text: &[u8], setting: &mut Setting) -> Result<(), Fault> {
    let (word, behind) = parted(text, b' ');
    match word {
        b"kept" => setting.torn = Torn::Kept,
        b"lost" => setting.torn = Torn::Lost,
        b"filled" => setting.torn = Torn::Filled(number_of(behind)?.min(255) as u8),
        _ => return Err(Fault::NoSuchForm),
    }
    Ok(())
}

/// Takes what a file holds.
fn take_file(alloc: Global, text: &[u8], setting: &mut Setting) -> Result<(), Fault> {
    let (side, behind) = parted(text, b' ');
    let (_, digits) = parted(behind, b' ');
    let octets = read_hex(alloc, digits)?;
    match side {
        b"a" => setting.a_holds = Some(octets),
        b"b" => setting.b_holds = Some(octets),
        _ => return Err(Fault::NoSuchForm),
    }
    Ok(())
}

/// Takes how many octets come at once.
fn take_pieces(text: &[u8], setting: &mut Setting) -> Result<(), Fault> {
    let (_, digits) = parted(text, b' ');
    setting.piece = number_of(digits)?;
    Ok(())
}

/// Takes a call that fails.
fn take_failure(text: &[u8], setting: &mut Setting) -> Result<(), Fault> {
    let (what, digits) = parted(text, b' ');
    let call = u64::from(number_of(digits)?);
    match what {
        b"a" => put_call(call, &mut setting.a_fails)?,
        b"b" => put_call(call, &mut setting.b_fails)?,
        b"input" => put_call(call, &mut setting.input_fails)?,
        b"tables" => put_call(call, &mut setting.tables_fail)?,
        b"network" => put_call(call, &mut setting.network_fails)?,
        b"output" => put_call(call, &mut setting.output_fails)?,
        _ => return Err(Fault::NoSuchForm),
    }
    Ok(())
}

/// Appends the number of a call.
fn put_call(call: u64, into: &mut Vec<u64>) -> Result<(), OutOfMemory> {
    into.push(call)?;
    Ok(())
}
