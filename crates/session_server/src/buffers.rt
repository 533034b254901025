//! The room in which lines are worked on.

ghost use Rattle.std.specs.Prelude.{IfOk};
ghost use Rattle.session_server.specs.Buffers.{IsReady};

use dns_wire::Reply;
use list_sending::{ROOM, Scratch, ValueText};
use octets::{OutOfMemory, zeros};
use packet_cache::PacketCache;
use r53_io::MAX_DATAGRAM;
use std::alloc::Global;

/// The octets of the reply to a packet (RULES, A reply that is too long).
const REPLY_ROOM: usize = 4096;

/// The room in which lines are worked on. What it holds between them doesn't matter.
#[derive(Drop)]
pub(crate) struct Buffers {
    /// A datagram that came.
    pub(crate) packet: Vec<u8>,
    /// Replies that are kept while turns are taken.
    pub(crate) replies: PacketCache,
    /// The reply to a packet.
    pub(crate) reply: Reply,
    /// A part of a reply line.
    pub(crate) text: Vec<u8>,
    /// A set that is listed.
    pub(crate) scratch: Scratch,
    /// A value of it.
    pub(crate) value: ValueText,
}

impl Buffers {
    /// Room for any line.
    pub(crate) fn new(alloc: Global) -> Result<Buffers, OutOfMemory>
        ensures { IfOk result IsReady }
    {
        let packet = zeros(alloc, MAX_DATAGRAM)?;
        let replies = PacketCache::new(alloc)?;
        let reply = Reply::new(alloc, REPLY_ROOM)?;
        let text = Vec::with_capacity(alloc, ROOM)?;
        let scratch = Scratch::new(alloc)?;
        Ok(Buffers {
            packet,
            replies,
            reply,
            text,
            scratch,
            value: ValueText::new(),
        })
    }
}
