//! The reply to a packet, which is kept or made.

ghost use Rattle.std.specs.Prelude.{◌≡◌, ◌≤◌, length, take, None, Some, IfSome};
ghost use Rattle.session_model.specs.Engine.{Engine, QueryGives, is_healthy};
ghost use Rattle.r53_core.specs.Stores.{StandsFor};
ghost use Rattle.serve_turns.specs.Settled.{IsThere, Serves, octets_of};
ghost use Rattle.settled_replies.specs.Names.{AreOctets};
ghost use Rattle.settled_replies.specs.Settled.{AnswersAll};

use address_text::IpAddress;
use dns_wire::Reply;
use geo_latency::Tables;
use octets::front;
use packet_cache::{PacketCache, key_of};
use r53_core::Store;

/// Where the reply to a packet stands.
#[derive(Clone, Copy, Debug, PartialEq, Eq)]
pub(crate) enum Told {
    /// Nothing is answered.
    Nothing,
    /// In the packet's own place, with so many octets.
    InPacket(usize),
    /// In the reply.
    InReply,
}

/// Answers a packet that lies in front of these octets: by the reply that is kept for it, which takes its place, or by
/// one that is made.
#[inline(always)]
pub(crate) fn reply_to(
    store: &mut Store,
    tables: &Tables,
    peer: IpAddress,
    words: &[u64; 8],
    packet: &mut [u8],
    len: usize,
    replies: &mut PacketCache,
    reply: &mut Reply,
) -> Told
    requires len { len ≤ length packet.old }
    requires room { 4096 ≤ reply.old.room }
    ensures gives { (engine : Engine) → Serves engine tables.now store.old replies.old
        → QueryGives engine tables.now (record { peer = peer; words = words.now }) (take len packet.old)
        (octets_of result packet.new reply.new.bytes) }
    ensures there { IsThere result packet.new }
    ensures same { store.new ≡ store.old }
    ensures serves { (engine : Engine) → Serves engine tables.now store.old replies.old
        → Serves engine tables.now store.new replies.new }
    ensures packet { length packet.new ≡ length packet.old }
    ensures room { reply.new.room ≡ reply.old.room }
{
    known_octets(front(packet, len));
    let key = key_of(front(packet, len));
    match replies.answer(key, packet, len) {
        Some(size) => Told::InPacket(size),
        None => match made(
            store,
            tables,
            peer,
            words,
            front(packet, len),
            key,
            replies,
            reply,
        ) {
            Some(_) => Told::InReply,
            None => Told::Nothing,
        },
    }
}

/// The octets of the reply, where there is one.
#[inline(always)]
pub(crate) fn octets_told<'a>(told: Told, packet: &'a [u8], reply: &'a Reply) -> Option<&'a [u8]>
    requires { IsThere told packet.now }
    ensures some { IfSome result (λ octets. octets_of told packet.now reply.now.bytes ≡ Some octets.now) }
    ensures none { result ≡ None → octets_of told packet.now reply.now.bytes ≡ None }
{
    match told {
        Told::Nothing => None,
        Told::InPacket(size) => Some(front(packet, size)),
        Told::InReply => Some(reply.bytes()),
    }
}

/// Makes the reply to a packet, and says how many octets it has. It is kept where it is the same whoever asks, and
/// the packet came before.
#[inline(always)]
fn made(
    store: &mut Store,
    tables: &Tables,
    peer: IpAddress,
    words: &[u64; 8],
    packet: &[u8],
    key: u64,
    replies: &mut PacketCache,
    reply: &mut Reply,
) -> Option<usize>
    requires room { 4096 ≤ reply.old.room }
    ensures some { IfSome result (λ n. (engine : Engine) → StandsFor engine store.old
        → QueryGives engine tables.now (record { peer = peer; words = words.now }) packet.now
        (Some reply.new.bytes)) }
    ensures none { result ≡ None → (engine : Engine) → StandsFor engine store.old
        → QueryGives engine tables.now (record { peer = peer; words = words.now }) packet.now None }
    ensures same { store.new ≡ store.old }
    ensures serves { (engine : Engine) → Serves engine tables.now store.old replies.old
        → Serves engine tables.now store.new replies.new }
    ensures room { reply.new.room ≡ reply.old.room }
{
    if !replies.note(key) {
        return store.query(tables, packet, peer, words, reply);
    }
    match settled(store, tables, packet, key, replies, reply) {
        Some(size) => Some(size),
        None => store.query(tables, packet, peer, words, reply),
    }
}

/// Makes the reply to a packet where it is the same whoever asks, and keeps it; else it notes that it isn't.
// Apart from the way that most packets take.
#[inline(never)]
fn settled(
    store: &mut Store,
    tables: &Tables,
    packet: &[u8],
    key: u64,
    replies: &mut PacketCache,
    reply: &mut Reply,
) -> Option<usize>
    requires room { 4096 ≤ reply.old.room }
    ensures answers { IfSome result (λ n. (engine : Engine) → StandsFor engine store.old
        → AnswersAll engine.config.zones engine.config.collections.list
        (is_healthy engine.config engine.reports) tables.now packet.now reply.new.bytes) }
    ensures same { store.new ≡ store.old }
    ensures serves { (engine : Engine) → Serves engine tables.now store.old replies.old
        → Serves engine tables.now store.new replies.new }
    ensures room { reply.new.room ≡ reply.old.room }
{
    match store.settle(tables, packet, reply) {
        Some(size) => {
            replies.keep(key, packet, reply.bytes());
            Some(size)
        }
        None => {
            replies.pass_by(key);
            None
        }
    }
}

/// The octets of a slice are octets.
fn known_octets(octets: &[u8])
    ensures { AreOctets octets.now }
{}
