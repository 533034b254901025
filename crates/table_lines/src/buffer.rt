//! A slice as a buffer: reading behind what stands in it, and moving that to its front.

ghost use Rattle.std.specs.Prelude.{◌≡◌, ◌≤◌, ◌<◌, ◌-◌, ℕ, List, Some, length, take, drop};
ghost use Rattle.octets.specs.Counts.{Rose};
ghost use Rattle.line_splitting.specs.Waiting.{GrowsIn, TakesIn};

use r53_io::{Got, Source};

/// Reads once, at most so many octets, into what stands behind a place.
pub(crate) fn read_behind<S: Source>(source: &mut S, buffer: &mut [u8], at: usize, most: u64) -> Got
    requires room { at < length buffer.old }
    requires some { 0 < most }
    ensures size { length buffer.new ≡ length buffer.old }
    ensures grows { GrowsIn at result most (length buffer.old) }
    ensures front { take at buffer.new ≡ take at buffer.old }
    ensures takes { (left : List ℕ) → S.left source.old ≡ Some left
        → TakesIn left (S.left source.new) result at buffer.old buffer.new }
    ensures counts { S.faults source.old ≤ S.faults source.new }
    ensures failed { result ≡ Got.Failed → Rose (S.faults source.old) (S.faults source.new) }
{
    let room = ((buffer.len() - at) as u64).min(most) as usize;
    source.read(&mut buffer[at..at + room])
}

/// Moves what stands between two places to the front, and says how much that is.
pub(crate) fn move_to_front(buffer: &mut [u8], start: usize, end: usize) -> usize
    requires start { start ≤ end }
    requires end { end ≤ length buffer.old }
    ensures len { result ≡ end - start }
    ensures front { take (end - start) buffer.new ≡ drop start (take end buffer.old) }
    ensures size { length buffer.new ≡ length buffer.old }
{
    if start > 0 {
        buffer.copy_within(start..end, 0);
    }
    end - start
}
