//! The record that a disk in memory keeps of its calls.

ghost use Rattle.std.specs.Prelude.{◌≡◌, ◌≤◌, ◌++◌, [], ◌∷◌, ◌+◌, ◌<◌, ◌⊎◌, ◌↔◌, length, OnOk, OnErr, IsTrue};
ghost use Rattle.std.specs.List.{Contains};
ghost use Rattle.r53_disk.specs.Disk.{written};
ghost use Rattle.r53_disk.specs.Memory.{Wrote, Tried, Synced};
ghost use Rattle.r53_disk.specs.Calls.{traces_of};

use octets::{OutOfMemory, put_at};
use std::alloc::Global;

/// A call that a crash can tell from none.
#[derive(Drop)]
pub(crate) enum Call {
    /// A write at a place that was done.
    Write(u64, Vec<u8>),
    /// A write at a place that failed.
    Try(u64, Vec<u8>),
    /// A sync that succeeded.
    Sync,
}

/// Writes over what is there, and past the end.
pub(crate) fn write_over(bytes: &mut Vec<u8>, at: usize, from: &[u8]) -> Result<(), OutOfMemory>
    requires { at ≤ length bytes.old.items }
    ensures ok { OnOk result (bytes.new.items ≡ written bytes.old.items at from.now) }
    ensures err { OnErr result (bytes.new.items ≡ bytes.old.items) }
{
    let more = from.len().saturating_sub(bytes.len() - at);
    bytes.extend_from_slice(&from[from.len() - more..])?;
    put_at(bytes.as_mut_slice(), at, from);
    Ok(())
}

/// Writes, and keeps the call. Where there is no memory for it, nothing is done.
pub(crate) fn note_write(
    alloc: Global,
    calls: &mut Vec<Call>,
    bytes: &mut Vec<u8>,
    at: u64,
    from: &[u8],
) -> Result<(), OutOfMemory>
    requires { at ≤ length bytes.old.items }
    ensures kept { OnOk result (traces_of calls.new.items
        ≡ traces_of calls.old.items ++ Wrote at from.now ∷ []) }
    ensures reads { OnOk result (bytes.new.items ≡ written bytes.old.items at from.now) }
    ensures nothing { OnErr result ((calls.new.items ≡ calls.old.items)
        × (bytes.new.items ≡ bytes.old.items)) }
{
    let piece = from.to_vec(alloc)?;
    calls.reserve(1)?;
    write_over(bytes, at as usize, from)?;
    calls.push_reserved(Call::Write(at, piece));
    Ok(())
}

/// Keeps a write that fails.
pub(crate) fn note_try(
    alloc: Global,
    calls: &mut Vec<Call>,
    at: u64,
    from: &[u8],
) -> Result<(), OutOfMemory>
    ensures kept { OnOk result (traces_of calls.new.items
        ≡ traces_of calls.old.items ++ Tried at from.now ∷ []) }
    ensures nothing { OnErr result (calls.new.items ≡ calls.old.items) }
{
    let piece = from.to_vec(alloc)?;
    calls.push(Call::Try(at, piece))?;
    Ok(())
}

/// Keeps a sync that succeeds.
pub(crate) fn note_sync(calls: &mut Vec<Call>) -> Result<(), OutOfMemory>
    ensures kept { OnOk result (traces_of calls.new.items ≡ traces_of calls.old.items ++ Synced ∷ []) }
    ensures nothing { OnErr result (calls.new.items ≡ calls.old.items) }
{
    calls.push(Call::Sync)?;
    Ok(())
}

/// Whether a write is one of those that fail, or goes past the room.
pub(crate) fn is_refused(fail: &[u64], call: u64, room: u64, at: u64, from: &[u8]) -> bool
    ensures { IsTrue result ↔ (Contains fail.now call ⊎ (room < at + length from.now)) }
{
    if fail.contains(&call) {
        return true;
    }
    if at > room {
        return true;
    }
    from.len() as u64 > room - at
}
