//! A reader as a source.

ghost use Rattle.std.specs.Prelude.{◌≡◌, ℕ, ◌<◌, ◌≤◌, List, Option, Some, length, IfOk, OnErr};
ghost use Rattle.std.specs.Io.KnownBytes.{ReadConsumes};
ghost use Rattle.octets.specs.Counts.{Rose};
ghost use Rattle.r53_io.specs.Streams.{IsWithin, ReadGives};
ghost use Rattle.stream_adapters.specs.Reading.{ReadingState, TellsRead, CountsRead, StaysBehind, KeepsBehind};

use octets::{OutOfMemory, fill_front, front, zeros};
use r53_io::{Got, Source};
use std::alloc::Global;
use std::io::{self, Read};
use std::marker::Model;

/// The most octets of one read.
const PIECE_LEN: usize = 65_536;

/// A reader as a source: what it tells as left, and its count of faults.
///
/// It reads by a buffer of its own, since a reader may write to the slice that it is given before it fails.
#[derive(Drop)]
pub struct Reading<R: Read> {
    inner: R,
    buffer: Vec<u8>,
    faults: u64,
}

impl<R: Read> Model for Reading<R> {
    ghost use Rattle.std.specs.Prelude.{◌<◌, length};
    ghost use Rattle.stream_adapters.specs.Reading.{ReadingState};

    ghost Value = { ReadingState };

    ghost view = { λ a. record {
      left = R.remaining a.inner;
      faults = a.faults;
    } };

    ghost invariant = { λ a. 0 < length a.buffer.items };
}

impl<R: Read> Reading<R> {
    /// A source over this reader, which has not failed yet.
    pub fn new(alloc: Global, inner: R) -> Result<Self, OutOfMemory>
    where
        R: Drop,
        ensures { IfOk result (λ source. source ≡ record { left = R.remaining inner; faults = 0 }) }
    {
        let buffer = zeros(alloc, PIECE_LEN)?;
        Ok(Reading {
            inner,
            buffer,
            faults: 0,
        })
    }
}

impl<R: Read> Source for Reading<R> {
    ghost left = { λ s. s.left };

    ghost faults = { λ s. s.faults };

    fn read(&mut self, into: &mut [u8]) -> Got
        ensures within { IsWithin result (length into.old) }
        ensures gives { (bytes : List ℕ) → self.old.left ≡ Some bytes
            → ReadGives bytes self.new.left result into.old into.new }
        ensures counts { self.old.faults ≤ self.new.faults }
        ensures failed { result ≡ Got.Failed → Rose self.old.faults self.new.faults }

        // The count rises by one at each failure, and at nothing else.
        ensures counted { CountsRead result self.old.faults self.new.faults }

        // Nothing but what is told is put into the slice, also where no octet is told.
        ensures behind { StaysBehind result into.old into.new }
    {
        let answer = read_by(&mut self.inner, &mut self.buffer, into);
        told_read(answer, &mut self.faults)
    }
}

/// Tells what a read came to, and counts it where it failed.
pub fn told_read(answer: io::Result<usize>, faults: &mut u64) -> Got
    ensures told { TellsRead answer result faults.old faults.new }
    ensures counts { faults.old ≤ faults.new }
{
    match answer {
        Ok(n) => Got::Bytes(n),
        Err(_) => {
            *faults = faults.saturating_add(1);
            Got::Failed
        }
    }
}

/// Reads into a buffer, and copies from there what was read.
fn read_by<R: Read>(inner: &mut R, buffer: &mut [u8], into: &mut [u8]) -> io::Result<usize>
    requires { 0 < length buffer.old }
    ensures within { IfOk result (λ n. n ≤ length into.old) }
    ensures bytes { ReadConsumes (R.remaining inner.old) (R.remaining inner.new) result into.new }
    ensures room { length buffer.new ≡ length buffer.old }
    ensures behind { KeepsBehind result into.old into.new }
{
    let most = into.len().min(buffer.len());
    let n = inner.read(&mut buffer[..most])?;
    fill_front(into, front(buffer, n));
    Ok(n)
}
