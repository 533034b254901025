//! The bytes that wait, in one buffer.

ghost use Rattle.std.specs.Prelude.{◌≡◌, ◌≤◌, ◌<◌, ◌+◌, ◌-◌, ℕ, List, [], Some, length, take, drop};
ghost use Rattle.std.specs.Prelude.{IfOk};
ghost use Rattle.octets.specs.Counts.{Rose};
ghost use Rattle.line_splitting.specs.Waiting.{Waiting, Grows, Takes, GrowsIn, TakesIn};

use octets::{OutOfMemory, zeros};
use r53_io::{Got, Source};
use std::alloc::Global;
use std::marker::Model;

/// The bytes of the buffer: one line and one read behind it.
const BUFFER_LEN: usize = 1_114_112;

/// The line that was given, and behind it the bytes that wait.
#[derive(Drop)]
pub(crate) struct Window {
    buffer: Vec<u8>,
    line_start: usize,
    line_len: usize,
    start: usize,
    end: usize,
}

impl Model for Window {
    ghost use Rattle.std.specs.Prelude.{◌≡◌, ◌≤◌, ◌+◌, length, take, drop};
    ghost use Rattle.line_splitting.specs.Waiting.{Waiting};

    ghost Value = { Waiting };

    ghost view = { λ w. record {
      line = take w.line_len (drop w.line_start w.buffer.items);
      waiting = drop w.start (take w.end w.buffer.items);
    } };

    ghost invariant = { λ w. (length w.buffer.items ≡ 1114112)
        × (w.line_start + w.line_len ≤ 1114112)
        × (w.start ≤ w.end) × (w.end ≤ 1114112) };
}

impl Window {
    /// A buffer in which nothing waits.
    pub(crate) fn new(alloc: Global) -> Result<Window, OutOfMemory>
        ensures { IfOk result (λ w. w ≡ record { line = []; waiting = [] }) }
    {
        let buffer = zeros(alloc, BUFFER_LEN)?;
        Ok(Window {
            buffer,
            line_start: 0,
            line_len: 0,
            start: 0,
            end: 0,
        })
    }

    /// The bytes that wait.
    pub(crate) fn waiting(&self) -> &[u8]
        ensures { result.now ≡ self.now.waiting }
    {
        between(&self.buffer, self.start, self.end)
    }

    /// The line that was given.
    pub(crate) fn line(&self) -> &[u8]
        ensures { result.now ≡ self.now.line }
    {
        stretch(&self.buffer, self.line_start, self.line_len)
    }

    /// Gives the first bytes as a line, and lets these and others go.
    pub(crate) fn pass(&mut self, line: usize, gone: usize)
        requires line { line ≤ length self.old.waiting }
        requires gone { gone ≤ length self.old.waiting }
        ensures { self.new ≡ record {
          line = take line self.old.waiting;
          waiting = drop gone self.old.waiting;
        } }
    {
        self.line_start = self.start;
        self.line_len = line;
        self.start += gone;
    }

    /// Takes bytes from a source by one read, at most so many, and lets the line go.
    pub(crate) fn take_from<S: Source>(&mut self, source: &mut S, most: u64) -> Got
        requires short { length self.old.waiting ≤ 1048576 }
        requires some { 0 < most }
        ensures line { self.new.line ≡ [] }
        ensures grows { Grows self.old.waiting result most self.new.waiting }
        ensures takes { (left : List ℕ) → S.left source.old ≡ Some left
            → Takes left (S.left source.new) result self.old.waiting self.new.waiting }
        ensures counts { S.faults source.old ≤ S.faults source.new }
        ensures failed { result ≡ Got.Failed → Rose (S.faults source.old) (S.faults source.new) }
    {
        let buffer = self.buffer.as_mut_slice();
        let len = move_to_front(buffer, self.start, self.end);
        self.line_start = 0;
        self.line_len = 0;
        self.start = 0;
        match read_behind(source, buffer, len, most) {
            Got::Bytes(n) => {
                self.end = len + n;
                Got::Bytes(n)
            }
            Got::Failed => {
                self.end = len;
                Got::Failed
            }
        }
    }
}

/// What stands between two places.
fn between(bytes: &[u8], start: usize, end: usize) -> &[u8]
    requires start { start ≤ end }
    requires end { end ≤ length bytes.now }
    ensures { result.now ≡ drop start (take end bytes.now) }
{
    &bytes[start..end]
}

/// So many bytes from a place on.
fn stretch(bytes: &[u8], start: usize, len: usize) -> &[u8]
    requires { start + len ≤ length bytes.now }
    ensures { result.now ≡ take len (drop start bytes.now) }
{
    &bytes[start..start + len]
}

/// Moves what stands between two places to the front, and says how much that is.
fn move_to_front(buffer: &mut [u8], start: usize, end: usize) -> usize
    requires start { start ≤ end }
    requires end { end ≤ length buffer.old }
    ensures len { result ≡ end - start }
    ensures front { take (end - start) buffer.new ≡ drop start (take end buffer.old) }
    ensures size { length buffer.new ≡ length buffer.old }
{
    if start > 0 {
        buffer.copy_within(start..end, 0);
    }
    end - start
}

/// Reads once, at most so many bytes, into what stands behind a place.
fn read_behind<S: Source>(source: &mut S, buffer: &mut [u8], at: usize, most: u64) -> Got
    requires room { at < length buffer.old }
    requires some { 0 < most }
    ensures size { length buffer.new ≡ length buffer.old }
    ensures grows { GrowsIn at result most (length buffer.old) }
    ensures front { take at buffer.new ≡ take at buffer.old }
    ensures takes { (left : List ℕ) → S.left source.old ≡ Some left
        → TakesIn left (S.left source.new) result at buffer.old buffer.new }
    ensures counts { S.faults source.old ≤ S.faults source.new }
    ensures failed { result ≡ Got.Failed → Rose (S.faults source.old) (S.faults source.new) }
{
    let room = ((buffer.len() - at) as u64).min(most) as usize;
    source.read(&mut buffer[at..at + room])
}
