//! An entry with all its memory taken, laid out as it will stand on the disk.

ghost use Rattle.std.specs.Prelude.{◌≡◌, ◌<◌, ◌≤◌, ◌+◌, ◌^◌, ◌++◌, ◌∷◌, [], length, IfOk, IsTrue, ◌↔◌};
ghost use Rattle.gate_journal.specs.Layout.{body, most};

use byteorder::{BigEndian, ByteOrder};
use octets::OutOfMemory;
use std::alloc::Global;
use std::marker::Model;

/// The most bytes that a file may have, up to its closed gate and with it.
const MOST: u64 = 268_435_456;

/// The bytes of an entry, with all the memory that an append of them wants.
///
/// It keeps them as they are written: their length, the bytes, and the next gate, closed.
#[derive(Drop)]
pub struct Entry {
    buffer: Vec<u8>,
    size: u32,
}

impl Model for Entry {
    ghost use Rattle.std.specs.Prelude.{◌≡◌, ◌<◌, ◌^◌, ◌++◌, ◌∷◌, [], ℕ, List, length, take, drop};
    ghost use Rattle.gate_journal.specs.Layout.{body};

    ghost Value = { List ℕ };

    ghost view = { λ e. take e.size (drop 4 e.buffer.items) };

    ghost invariant = { λ e. (e.buffer.items ≡ body (take e.size (drop 4 e.buffer.items))
        ++ 0 ∷ []) × (length (take e.size (drop 4 e.buffer.items)) ≡ e.size) };
}

impl Entry {
    /// An entry of these bytes.
    pub fn new(alloc: Global, bytes: &[u8]) -> Result<Entry, OutOfMemory>
        requires { length bytes.now < 2 ^ 32 }
        ensures { IfOk result (λ entry. entry ≡ bytes.now) }
    {
        let mut buffer = Vec::new(alloc);
        let mut number = [0; 4];
        let size = bytes.len() as u32;
        BigEndian::write_u32(&mut number, size);
        buffer.extend_from_slice(&number)?;
        buffer.extend_from_slice(bytes)?;
        buffer.push(0)?;
        Ok(Entry { buffer, size })
    }

    /// The number of its bytes.
    pub fn length(&self) -> u32
        ensures { result ≡ length self.now }
    {
        self.size
    }

    /// Its length, its bytes and a closed gate.
    pub(crate) fn as_written(&self) -> &[u8]
        ensures { result.now ≡ body self.now ++ 0 ∷ [] }
    {
        &self.buffer
    }
}

/// Whether an entry fits behind the closed gate of a file that has `used` bytes with that gate.
pub fn fits(used: u64, entry: &Entry) -> bool
    ensures { IsTrue result ↔ (used + 5 + length entry.now ≤ most) }
{
    MOST.saturating_sub(used) >= 5 + u64::from(entry.length())
}
