//! Names with the longest suffix that the question's name has too as a pointer (RFC 1035, 4.1.4).

ghost use Rattle.std.specs.Prelude.{◌≡◌, ◌≢◌, ℕ, ◌+◌, ◌<◌, ◌≤◌, List, [], ◌∷◌, ◌++◌, length, take, drop, Option, Some, IfSome, IsTrue, ◌↔◌};
ghost use Rattle.rdata_layout.specs.Names.{IsName};
ghost use Rattle.rdata_layout.specs.Stored.{labels_of};
ghost use Rattle.rdata_layout.specs.Whole.{IsWire};
ghost use Rattle.dns_wire.specs.Pointers.{name_octets, place_in, pointer_to};

use octets::{behind, front, put_at, two_octets};
use rdata_layout::Name;

/// Where the name in the question begins, behind the header.
const QUESTION_NAME: u16 = 12;

/// Copies a piece to a place of the buffer, and says where it ends.
pub(crate) fn append(buffer: &mut [u8], at: usize, piece: &[u8]) -> usize
    requires { at + length piece.now ≤ length buffer.old }
    ensures end { result ≡ at + length piece.now }
    ensures written { take result buffer.new ≡ take at buffer.old ++ piece.now }
{
    put_at(buffer, at, piece);
    at + piece.len()
}

/// Writes a name, where `asked` is that in the question, and says where it ends.
pub(crate) fn add_name(buffer: &mut [u8], at: usize, asked: &Name, name: &Name) -> usize
    requires { at + 255 ≤ length buffer.old }
    ensures end { result ≡ at + length (name_octets asked.now name.now) }
    ensures most { result ≤ at + 255 }
    ensures written { take result buffer.new ≡ take at buffer.old ++ name_octets asked.now name.now }
{
    if name.is_root() {
        return append(buffer, at, &[0]);
    }
    if name.is_same(asked) {
        return append(buffer, at, &pointer(QUESTION_NAME));
    }
    add_octets(buffer, at, asked.octets(), name.octets())
}

/// Writes the name of these octets, and says where it ends.
pub(crate) fn add_octets(buffer: &mut [u8], at: usize, asked: &[u8], octets: &[u8]) -> usize
    requires asked { IsWire asked.now }
    requires octets { IsWire octets.now }
    requires room { at + length octets.now ≤ length buffer.old }
    ensures end { result ≡ at + length (name_octets (labels_of asked.now) (labels_of octets.now)) }
    ensures shorter { result ≤ at + length octets.now }
    ensures written { take result buffer.new ≡ take at buffer.old
        ++ name_octets (labels_of asked.now) (labels_of octets.now) }
{
    let mut from = 0;
    while octets[from] != 0 {
        if let Some(place) = place_of(asked, behind(octets, from)) {
            let end = append(buffer, at, front(octets, from));
            return append(buffer, end, &pointer(place));
        }
        from += octets[from] as usize + 1;
    }
    append(buffer, at, octets)
}

/// The place in the message at which the labels end the name in the question.
fn place_of(asked: &[u8], octets: &[u8]) -> Option<u16>
    requires asked { IsWire asked.now }
    requires octets { IsWire octets.now }
    ensures within { IfSome result (λ place. place ≤ 267) }
    ensures first { result ≡ place_in 12 (labels_of asked.now) (labels_of octets.now) }
{
    let mut at = 0;
    while asked[at] != 0 {
        if is_same(behind(asked, at), octets) {
            return Some(QUESTION_NAME + at as u16);
        }
        at += asked[at] as usize + 1;
    }
    None
}

/// Whether the octets are the same.
fn is_same(octets: &[u8], others: &[u8]) -> bool
    ensures { IsTrue result ↔ (octets.now ≡ others.now) }
{
    octets == others
}

/// A pointer to a place of the message.
fn pointer(place: u16) -> [u8; 2]
    requires { place < 16384 }
    ensures { result ≡ pointer_to place }
{
    two_octets(0xc000 + place)
}
