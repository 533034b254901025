//! Sets as octets, appended to a buffer that grows.

ghost use Rattle.std.specs.Prelude.{◌≡◌, ◌+◌, ◌≤◌, ◌++◌, length, OnOk, OnErr, IsOk};
ghost use Rattle.std.specs.Vec.{vec_len, vec_capacity};
ghost use Rattle.set_octets.specs.Octets.{set_octets, HasSpelling};

use crate::filling::fill_set;
use crate::lengths::set_len;
use octets::OutOfMemory;
use record_set::RecordSet;

/// Appends a set's octets. Where there is no memory, nothing is appended.
pub fn write_set(set: &RecordSet, into: &mut Vec<u8>) -> Result<(), OutOfMemory>
    requires { HasSpelling set.now }
    ensures ok { OnOk result (into.new.items ≡ into.old.items ++ set_octets set.now) }
    ensures err { OnErr result (into.new.items ≡ into.old.items) }
    // Where there is room, no memory is taken.
    ensures room { vec_len into.old + length (set_octets set.now) ≤ vec_capacity into.old
        → IsOk result }
{
    let at = into.len();
    into.resize(at + set_len(set), 0)?;
    fill_set(set, into.as_mut_slice(), at);
    Ok(())
}
