//! Names in packets, where the rest of a name may stand elsewhere (RFC 1035, 4.1.4).

use crate::fault::Fault;
use dns_name::Name;
use octets::{OutOfMemory, append};

/// What stands at a place of a name.
enum Piece {
    End,
    Label(usize),
    Pointer(usize),
}

/// What stands at a place of a name.
fn piece_at(packet: &[u8], at: usize) -> Result<Piece, Fault> {
    match packet.get(at..).unwrap_or(&[]) {
        [0, ..] => Ok(Piece::End),
        [high, low, ..] if *high >= 0xC0 => {
            Ok(Piece::Pointer((*high as usize - 0xC0) * 256 + *low as usize))
        }
        [len, ..] if *len < 64 => Ok(Piece::Label(*len as usize)),
        _ => Err(Fault::NoMessage),
    }
}

/// Appends the octets of the name at a place, and tells where it ends there.
pub fn put_name(packet: &[u8], at: usize, into: &mut Vec<u8>) -> Result<usize, Fault> {
    let mut place = at;
    let mut end = None;
    for _ in 0..256 {
        match piece_at(packet, place)? {
            Piece::End => {
                append(&[0], into)?;
                return Ok(end.unwrap_or(place.saturating_add(1)));
            }
            Piece::Label(len) => {
                let behind = place.saturating_add(len).saturating_add(1);
                append(packet.get(place..behind).unwrap_or(&[]), into)?;
                place = behind;
            }
            Piece::Pointer(to) => {
                if end.is_none() {
                    end = Some(place.saturating_add(2));
                }
                place = to;
            }
        }
    }
    Err(Fault::NoMessage)
}

/// Appends the text of the name that has these octets.
pub fn put_name_text(octets: &[u8], into: &mut Vec<u8>) -> Result<(), OutOfMemory> {
    let mut text = [0; 1024];
    let len = match Name::from_wire(octets) {
        Some((name, _)) => name.write_text(&mut text),
        None => 0,
    };
    append(text.get(..len).unwrap_or(&[]), into)
}
