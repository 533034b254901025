//! A sink in memory.

ghost use Rattle.std.specs.Prelude.{◌≡◌, ℕ, ◌+◌, ◌<◌, ◌≤◌, List, [], Some, length, take, IfOk, ◌↔◌};
ghost use Rattle.std.specs.Prelude.{◌⊎◌};
ghost use Rattle.std.specs.List.{Contains};
ghost use Rattle.octets.specs.Counts.{Rose};
ghost use Rattle.r53_io.specs.Streams.{IsWithin, WriteLeaves, IfBytes};
ghost use Rattle.r53_io.specs.Memory.{AfterWrite};

use crate::{Got, Sink};
use octets::{OutOfMemory, front, put_at, zeros};
use std::alloc::Global;
use std::marker::Model;

/// A sink in memory with a fixed room, which takes each piece whole and fails at the calls that
/// it is told.
#[derive(Drop)]
pub struct VecSink {
    buffer: Vec<u8>,
    len: usize,
    fail: Vec<u64>,
    calls: u64,
    faults: u64,
}

impl Model for VecSink {
    ghost use Rattle.std.specs.Prelude.{◌≤◌, length, take};
    ghost use Rattle.r53_io.specs.Memory.{SinkState};

    ghost Value = { SinkState };

    ghost view = { λ a. record {
      held = take a.len a.buffer.items;
      room = length a.buffer.items;
      fail = a.fail.items;
      calls = a.calls;
      faults = a.faults;
    } };

    ghost invariant = { λ a. a.len ≤ length a.buffer.items };
}

impl VecSink {
    /// An empty sink with this room. The calls whose numbers, from 0, are in `fail` fail.
    pub fn new(alloc: Global, room: usize, fail: &[u64]) -> Result<VecSink, OutOfMemory>
        ensures { IfOk result (λ sink. sink ≡ record {
          held = [];
          room = room;
          fail = fail.now;
          calls = 0;
          faults = 0;
        }) }
    {
        let buffer = zeros(alloc, room)?;
        let fail = fail.to_vec(alloc)?;
        Ok(VecSink {
            buffer,
            len: 0,
            fail,
            calls: 0,
            faults: 0,
        })
    }

    /// What it holds.
    pub fn bytes(&self) -> &[u8]
        ensures { result.now ≡ self.now.held }
    {
        front(&self.buffer, self.len)
    }
}

impl Sink for VecSink {
    ghost use Rattle.std.specs.Prelude.{Some};

    ghost held = { λ s. Some s.held };

    ghost faults = { λ s. s.faults };

    fn write(&mut self, from: &[u8]) -> Got
        ensures within { IsWithin result (length from.now) }
        ensures leaves { (bytes : List ℕ) → Some self.old.held ≡ Some bytes
            → WriteLeaves bytes (Some self.new.held) result from.now }
        ensures counts { self.old.faults ≤ self.new.faults }
        ensures failed { result ≡ Got.Failed → Rose self.old.faults self.new.faults }
        ensures stuck { result ≡ Got.Bytes 0 → 0 < length from.now
            → Rose self.old.faults self.new.faults }

        // It fails exactly at the calls that it was told and past its room, and else takes the
        // piece whole.
        ensures exact { result ≡ Got.Failed ↔ (Contains self.old.fail self.old.calls
            ⊎ (self.old.room < length self.old.held + length from.now)) }
        ensures whole { IfBytes result (λ n. n ≡ length from.now) }
        ensures after { AfterWrite self.old result from.now self.new }
    {
        let call = self.calls;
        self.calls = self.calls.saturating_add(1);
        if self.fail.contains(&call) {
            self.faults = self.faults.saturating_add(1);
            return Got::Failed;
        }
        if self.buffer.len() - self.len < from.len() {
            self.faults = self.faults.saturating_add(1);
            return Got::Failed;
        }
        put_at(&mut self.buffer, self.len, from);
        self.len += from.len();
        Got::Bytes(from.len())
    }
}
