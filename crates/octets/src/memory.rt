//! What takes memory, and says so where there is none.

ghost use Rattle.std.specs.Prelude.{◌≡◌, ◌++◌, length, IfOk, OnOk, OnErr, All};

use std::alloc::{AllocError, AllocFailed, Global};

/// Memory was wanted and was not there.
#[derive(Clone, Copy, Debug, PartialEq, Eq)]
pub struct OutOfMemory;

impl From<AllocError> for OutOfMemory {
    fn from(_: AllocError) -> Self {
        OutOfMemory
    }
}

impl<T: Drop> From<AllocFailed<T>> for OutOfMemory {
    fn from(_: AllocFailed<T>) -> Self {
        OutOfMemory
    }
}

/// A buffer of `len` zeros.
pub fn zeros(alloc: Global, len: usize) -> Result<Vec<u8>, OutOfMemory>
    ensures length { IfOk result (λ v. length v.items ≡ len) }
    ensures zero { IfOk result (λ v. All (λ b. b ≡ 0) v.items) }
{
    let v = vec![in alloc; 0; len]?;
    Ok(v)
}

/// Puts a piece behind what the vector holds.
pub fn append(piece: &[u8], into: &mut Vec<u8>) -> Result<(), OutOfMemory>
    ensures ok { OnOk result (into.new.items ≡ into.old.items ++ piece.now) }
    ensures err { OnErr result (into.new.items ≡ into.old.items) }
{
    into.extend_from_slice(piece)?;
    Ok(())
}
