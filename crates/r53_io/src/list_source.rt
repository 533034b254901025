//! A source in memory.

ghost use Rattle.std.specs.Prelude.{◌≡◌, ℕ, ◌<◌, ◌≤◌, List, Some, ◌++◌, length, take, drop, min};
ghost use Rattle.std.specs.Prelude.{IfOk, ◌↔◌};
ghost use Rattle.std.specs.List.{Contains};
ghost use Rattle.octets.specs.Counts.{Rose, next_count};
ghost use Rattle.r53_io.specs.Streams.{IsWithin, ReadGives, IfBytes};
ghost use Rattle.r53_io.specs.Memory.{SourceState, AfterRead};

use crate::{Got, Source};
use octets::{OutOfMemory, behind, fill_front, front};
use std::alloc::Global;
use std::marker::Model;

/// A source over bytes in memory, which hands them out in pieces and fails at the calls it is told.
#[derive(Drop)]
pub struct ListSource {
    bytes: Vec<u8>,
    at: usize,
    piece: usize,
    fail: Vec<u64>,
    calls: u64,
    faults: u64,
}

impl Model for ListSource {
    ghost use Rattle.std.specs.Prelude.{◌≤◌, ◌<◌, length, drop};
    ghost use Rattle.r53_io.specs.Memory.{SourceState};

    ghost Value = { SourceState };

    ghost view = { λ a. record {
      left = drop a.at a.bytes.items;
      piece = a.piece;
      fail = a.fail.items;
      calls = a.calls;
      faults = a.faults;
    } };

    ghost invariant = { λ a. (a.at ≤ length a.bytes.items) × (0 < a.piece) };
}

impl ListSource {
    /// A source of these bytes, at most `piece` of them at a time. The calls whose numbers, from
    /// 0, are in `fail` fail.
    pub fn new(
        alloc: Global,
        bytes: &[u8],
        piece: usize,
        fail: &[u64],
    ) -> Result<ListSource, OutOfMemory>
        requires { 0 < piece }
        ensures { IfOk result (λ source. source ≡ record {
          left = bytes.now;
          piece = piece;
          fail = fail.now;
          calls = 0;
          faults = 0;
        }) }
    {
        let bytes = bytes.to_vec(alloc)?;
        let fail = fail.to_vec(alloc)?;
        Ok(ListSource {
            bytes,
            at: 0,
            piece,
            fail,
            calls: 0,
            faults: 0,
        })
    }
}

impl Source for ListSource {
    ghost use Rattle.std.specs.Prelude.{Some};

    ghost left = { λ s. Some s.left };

    ghost faults = { λ s. s.faults };

    fn read(&mut self, into: &mut [u8]) -> Got
        ensures within { IsWithin result (length into.old) }
        ensures gives { (bytes : List ℕ) → Some self.old.left ≡ Some bytes
            → ReadGives bytes (Some self.new.left) result into.old into.new }
        ensures counts { self.old.faults ≤ self.new.faults }
        ensures failed { result ≡ Got.Failed → Rose self.old.faults self.new.faults }

        // It fails exactly at the calls that it was told, and else gives as much as it can.
        ensures exact { result ≡ Got.Failed ↔ Contains self.old.fail self.old.calls }
        ensures most { IfBytes result (λ n.
            n ≡ min self.old.piece (min (length into.old) (length self.old.left))) }
        ensures after { AfterRead self.old result self.new }

        // What stands in the slice behind what it gives stays.
        ensures behind { IfBytes result (λ n. drop n into.new ≡ drop n into.old) }
    {
        let call = self.calls;
        self.calls = self.calls.saturating_add(1);
        if self.fail.contains(&call) {
            self.faults = self.faults.saturating_add(1);
            return Got::Failed;
        }
        let n = fill_some(into, behind(&self.bytes, self.at), self.piece);
        self.at += n;
        Got::Bytes(n)
    }
}

/// Copies the first bytes that are left to the front of the slice, as many as a piece and the
/// slice have room for.
fn fill_some(into: &mut [u8], left: &[u8], piece: usize) -> usize
    ensures most { result ≡ min piece (min (length into.old) (length left.now)) }
    ensures bytes { into.new ≡ take result left.now ++ drop result into.old }
{
    let n = piece.min(into.len()).min(left.len());
    fill_front(into, front(left, n));
    n
}
