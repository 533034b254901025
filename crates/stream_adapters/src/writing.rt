//! A writer as a sink.

ghost use Rattle.std.specs.Prelude.{◌≡◌, ℕ, ◌<◌, ◌≤◌, List, Option, Some, length};
ghost use Rattle.octets.specs.Counts.{Rose};
ghost use Rattle.r53_io.specs.Streams.{IsWithin, WriteLeaves};
ghost use Rattle.stream_adapters.specs.Writing.{WritingState, TellsWritten, CountsWrite};

use r53_io::{Got, Sink};
use std::io::{self, Write};
use std::marker::Model;

/// A writer as a sink: what it tells as held, and its count of faults.
#[derive(Drop)]
pub struct Writing<W: Write> {
    inner: W,
    faults: u64,
}

impl<W: Write> Model for Writing<W> {
    ghost use Rattle.stream_adapters.specs.Writing.{WritingState};

    ghost Value = { WritingState };

    ghost view = { λ a. record {
      held = W.contents a.inner;
      faults = a.faults;
    } };
}

impl<W: Write> Writing<W> {
    /// A sink over this writer, which has not failed yet.
    pub fn new(inner: W) -> Self
        ensures { result ≡ record { held = W.contents inner; faults = 0 } }
    {
        Writing { inner, faults: 0 }
    }
}

impl<W: Write> Sink for Writing<W> {
    ghost held = { λ s. s.held };

    ghost faults = { λ s. s.faults };

    fn write(&mut self, from: &[u8]) -> Got
        ensures within { IsWithin result (length from.now) }
        ensures leaves { (bytes : List ℕ) → self.old.held ≡ Some bytes
            → WriteLeaves bytes self.new.held result from.now }
        ensures counts { self.old.faults ≤ self.new.faults }
        ensures failed { result ≡ Got.Failed → Rose self.old.faults self.new.faults }
        ensures stuck { result ≡ Got.Bytes 0 → 0 < length from.now
            → Rose self.old.faults self.new.faults }

        // The count rises by one at each failure and where nothing was taken of something, and nowhere else.
        ensures counted { CountsWrite result (length from.now) self.old.faults self.new.faults }
    {
        let answer = self.inner.write(from);
        told_written(answer, from.len(), &mut self.faults)
    }
}

/// Tells what a write of so many octets came to, and counts it where it failed, or took nothing of something.
pub fn told_written(answer: io::Result<usize>, len: usize, faults: &mut u64) -> Got
    ensures told { TellsWritten answer len result faults.old faults.new }
    ensures counts { faults.old ≤ faults.new }
{
    match answer {
        Ok(n) => {
            if n == 0 && len > 0 {
                *faults = faults.saturating_add(1);
            }
            Got::Bytes(n)
        }
        Err(_) => {
            *faults = faults.saturating_add(1);
            Got::Failed
        }
    }
}
