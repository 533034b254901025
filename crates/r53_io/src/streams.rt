//! Sources and sinks of bytes.

ghost use Rattle.std.specs.Prelude.{◌≡◌, ℕ, ◌<◌, ◌≤◌, List, Option, Some, length};
ghost use Rattle.octets.specs.Counts.{Rose};
ghost use Rattle.r53_io.specs.Streams.{IsWithin, ReadGives, WriteLeaves};

/// What a read or a write came to.
#[derive(Clone, Copy, Debug, PartialEq, Eq)]
pub enum Got {
    /// So many bytes were read or written.
    Bytes(usize),
    /// Nothing was read or written.
    Failed,
}

/// A source of bytes.
pub trait Source {
    /// The bytes that are left, where the source tells them.
    ghost left: { Self → Option (List ℕ) };

    /// How often it has failed.
    ghost faults: { Self → ℕ };

    /// Takes the first of the bytes that are left, at most as many as the slice has room for.
    ///
    /// 0 bytes into a slice with room are the end.
    fn read(&mut self, into: &mut [u8]) -> Got
        ensures within { IsWithin result (length into.old) }
        ensures gives { (bytes : List ℕ) → left self.old ≡ Some bytes
            → ReadGives bytes (left self.new) result into.old into.new }

        // It fails only where its count rose.
        ensures counts { faults self.old ≤ faults self.new }
        ensures failed { result ≡ Got.Failed → Rose (faults self.old) (faults self.new) };
}

/// A sink for bytes.
pub trait Sink {
    /// The bytes that it holds, where the sink tells them.
    ghost held: { Self → Option (List ℕ) };

    /// How often it has failed, or took nothing of a piece that is not empty.
    ghost faults: { Self → ℕ };

    /// Appends the first bytes of a piece.
    fn write(&mut self, from: &[u8]) -> Got
        ensures within { IsWithin result (length from.now) }
        ensures leaves { (bytes : List ℕ) → held self.old ≡ Some bytes
            → WriteLeaves bytes (held self.new) result from.now }

        // It fails, or takes nothing, only where its count rose.
        ensures counts { faults self.old ≤ faults self.new }
        ensures failed { result ≡ Got.Failed → Rose (faults self.old) (faults self.new) }
        ensures stuck { result ≡ Got.Bytes 0 → 0 < length from.now
            → Rose (faults self.old) (faults self.new) };
}
