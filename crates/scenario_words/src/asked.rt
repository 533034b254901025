//! A query in words, as what is sent of it.

ghost use Rattle.std.specs.Prelude.{IfOk};
ghost use Rattle.scenario_words.specs.Sending.{IsSent};

use crate::asking::read_query;
use crate::fault::Fault;
use crate::packets::packet_of;
use address_text::IpAddress;
use octets::OutOfMemory;
use std::alloc::Global;

/// A packet, who sends it, and the random words with which it is answered.
#[derive(Drop)]
pub struct Asked {
    /// The packet.
    pub packet: Vec<u8>,
    /// Who sends it.
    pub from: IpAddress,
    /// The random words.
    pub words: [u64; 8],
}

/// What is sent of a query in words.
pub fn read_asked(alloc: Global, text: &[u8]) -> Result<Asked, Fault>
    ensures { IfOk result (λ asked. IsSent text.now asked) }
{
    let Some(query) = read_query(text) else {
        return Err(Fault::NoSuchForm);
    };
    match packet_of(alloc, &query) {
        Ok(packet) => Ok(Asked {
            packet,
            from: query.from,
            words: query.words,
        }),
        Err(OutOfMemory) => Err(Fault::OutOfMemory),
    }
}
