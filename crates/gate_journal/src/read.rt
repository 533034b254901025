//! Reads of a few bytes at a place, each None where the disk failed.

ghost use Rattle.std.specs.Prelude.{◌≡◌, ◌≤◌, ◌+◌, ℕ, List, length, take, drop, Some, None, IfSome, ◌∷◌, []};
ghost use Rattle.byteorder.specs.Endian.{big_bytes};
ghost use Rattle.octets.specs.Counts.{Rose};
ghost use Rattle.r53_disk.specs.Disk.{Reaches, Rests};

use byteorder::{BigEndian, ByteOrder};
use r53_disk::{Disk, Done};

/// The byte at a place.
pub(crate) fn read_byte<D: Disk>(disk: &mut D, at: u64) -> Option<u8>
    requires { Reaches (D.reading disk.old) (at + 1) }
    ensures byte { (bytes : List ℕ) → D.reading disk.old ≡ Some bytes
        → IfSome result (λ n. n ∷ [] ≡ take 1 (drop at bytes)) }
    ensures rests { Rests D.reading D.images D.moment D.images_since disk.old disk.new }
    ensures counts { D.faults disk.old ≤ D.faults disk.new }
    ensures failed { result ≡ None → Rose (D.faults disk.old) (D.faults disk.new) }
{
    let mut byte = [0];
    match disk.read_at(at, &mut byte) {
        Done::Whole => Some(byte[0]),
        Done::Failed => None,
    }
}

/// The number in the four bytes at a place.
pub(crate) fn read_count<D: Disk>(disk: &mut D, at: u64) -> Option<u32>
    requires { Reaches (D.reading disk.old) (at + 4) }
    ensures count { (bytes : List ℕ) → D.reading disk.old ≡ Some bytes
        → IfSome result (λ n. big_bytes 4 n ≡ take 4 (drop at bytes)) }
    ensures rests { Rests D.reading D.images D.moment D.images_since disk.old disk.new }
    ensures counts { D.faults disk.old ≤ D.faults disk.new }
    ensures failed { result ≡ None → Rose (D.faults disk.old) (D.faults disk.new) }
{
    let mut count = [0; 4];
    match disk.read_at(at, &mut count) {
        Done::Whole => Some(count_in(&count)),
        Done::Failed => None,
    }
}

fn count_in(bytes: &[u8]) -> u32
    requires { length bytes.now ≡ 4 }
    ensures { big_bytes 4 result ≡ bytes.now }
{
    BigEndian::read_u32(bytes)
}

/// The number in eight bytes.
pub(crate) fn generation_in(bytes: &[u8]) -> u64
    requires { length bytes.now ≡ 8 }
    ensures { big_bytes 8 result ≡ bytes.now }
{
    BigEndian::read_u64(bytes)
}

/// The bytes at a place, as many as there is room for.
pub(crate) fn read_whole<D: Disk>(disk: &mut D, at: u64, room: Vec<u8>) -> Option<Vec<u8>>
    requires { Reaches (D.reading disk.old) (at + length room.items) }
    ensures bytes { (bytes : List ℕ) → D.reading disk.old ≡ Some bytes
        → IfSome result (λ v. v.items ≡ take (length room.items) (drop at bytes)) }
    ensures length { IfSome result (λ v. length v.items ≡ length room.items) }
    ensures rests { Rests D.reading D.images D.moment D.images_since disk.old disk.new }
    ensures counts { D.faults disk.old ≤ D.faults disk.new }
    ensures failed { result ≡ None → Rose (D.faults disk.old) (D.faults disk.new) }
{
    let mut bytes = room;
    match disk.read_at(at, bytes.as_mut_slice()) {
        Done::Whole => Some(bytes),
        Done::Failed => None,
    }
}
