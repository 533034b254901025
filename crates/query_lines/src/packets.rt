//! Packets in hexadecimal digits.

ghost use Rattle.std.specs.Prelude.{◌≡◌};
ghost use Rattle.serde_json.specs.View.{view};
ghost use Rattle.line_reading.specs.Reading.{Gives};
ghost use Rattle.query_lines.specs.Queries.{packet, octets_of};

use hex::FromHexError;
use line_reading::{LineFault, LineReason, Member};
use serde_json::Value;
use std::alloc::Global;
use std::marker::Model;

/// The most digits of a packet.
const MOST_DIGITS: usize = 131_070;

/// The octets of a packet, at most 65,535.
#[derive(Drop)]
pub struct Packet {
    octets: Vec<u8>,
}

impl Model for Packet {
    ghost use Rattle.std.specs.Prelude.{List, ℕ};

    ghost Value = { List ℕ };

    ghost view = { λ v. v.octets.items };
}

impl Packet {
    /// A packet of these octets.
    pub fn from_vec(octets: Vec<u8>) -> Packet
        ensures { result ≡ octets.items }
    {
        Packet { octets }
    }

    /// The octets as a slice.
    pub fn as_slice(&self) -> &[u8]
        ensures { result.now ≡ self.now }
    {
        &self.octets
    }
}

/// A packet.
#[tactic(auto, unfolding(crate::specs::Queries::packet))]
pub(crate) fn read_packet(alloc: Global, member: Member, value: &Value) -> Result<Packet, LineFault>
    ensures { Gives result (packet member (view value.now)) }
{
    match value.as_str() {
        Some(text) => octets_of(alloc, member, text),
        None => Err(LineFault::bad(LineReason::WrongKind, member)),
    }
}

/// The octets of a text.
fn octets_of(alloc: Global, member: Member, text: &str) -> Result<Packet, LineFault>
    ensures { Gives result (octets_of member text.now) }
{
    if text.len() > MOST_DIGITS {
        return Err(LineFault::bad(LineReason::BadHex, member));
    }
    match hex::decode(alloc, text.as_bytes()) {
        Ok(octets) => Ok(Packet::from_vec(octets)),
        Err(FromHexError::OutOfMemory) => Err(LineFault::OutOfMemory),
        Err(_) => Err(LineFault::bad(LineReason::BadHex, member)),
    }
}
