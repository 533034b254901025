//! The one record of a run, and the reply to a packet that asks for it or for something else.

ghost use Rattle.std.specs.Prelude.{◌≡◌, ◌≤◌, [], IsTrue, ◌↔◌, IfSome, IfNone, length};
ghost use Rattle.dns_message.specs.Whole.{HasEdns, IsWhole};
ghost use Rattle.dns_wire.specs.Limit.{limit_of, version_refusal_of};
ghost use Rattle.dns_wire.specs.Message.{octets_within};
ghost use Rattle.r53_cli.specs.Once.{IsAsked, Answers, RepliesTo};

use dns_message::rcode::{BADVERS, REFUSED};
use dns_message::{Query, QueryRead, read_query};
use dns_name::Name;
use dns_wire::{RType, Reply, Section, limit_of};
use rdata::RData;

/// The number of class IN (RFC 1035, 3.2.4).
const IN: u16 = 1;

/// The one record that a run of `once` has, of type A and class IN.
#[derive(Drop)]
pub struct Once {
    /// The owner.
    pub name: Name,
    /// The time to live, in seconds.
    pub ttl: u32,
    /// The address, a value of type A.
    pub address: RData,
}

impl Once {
    /// Writes the reply to a packet, and says how long it is. None is silence.
    pub(crate) fn answer(&self, packet: &[u8], reply: &mut Reply) -> Option<usize>
        requires { 4096 ≤ reply.old.room }
        ensures silent { IfNone result (Answers self.now packet.now []) }
        ensures answered { IfSome result (λ _. Answers self.now packet.now reply.new.bytes) }
        ensures len { IfSome result (λ n. n ≡ length reply.new.bytes) }
    {
        match read_query(packet) {
            QueryRead::Silent => None,
            QueryRead::Bad {
                id,
                opcode,
                rd,
                rcode,
            } => Some(reply.short(id, opcode, rd, rcode)),
            QueryRead::BadVersion(query) => Some(refuse_version(&query, reply)),
            QueryRead::Query(query) => Some(self.reply_to(&query, reply)),
        }
    }

    /// Writes the reply to a query, and says how long it is.
    fn reply_to(&self, query: &Query, reply: &mut Reply) -> usize
        requires whole { IsWhole query.now }
        requires room { 4096 ≤ reply.old.room }
        ensures replied { RepliesTo self.now query.now reply.new.bytes }
        ensures len { result ≡ length reply.new.bytes }
    {
        reply.begin(query);
        if self.is_asked(query) {
            reply.record(
                Section::Answer,
                &query.name,
                self.address.rtype(),
                self.ttl,
                self.address.wire(),
            );
            reply.finish(true, 0, limit_of(&query.edns), 0)
        } else {
            reply.finish(false, u16::from(REFUSED), limit_of(&query.edns), 0)
        }
    }

    /// Whether a query asks for the record.
    fn is_asked(&self, query: &Query) -> bool
        ensures { IsTrue result ↔ IsAsked self.now query.now }
    {
        query.qtype == RType::A.number() && query.qclass == IN && query.name.is_same(&self.name)
    }
}

/// Writes the reply to a query of a newer version of EDNS, and says how long it is.
fn refuse_version(query: &Query, reply: &mut Reply) -> usize
    requires whole { IsWhole query.now }
    requires edns { HasEdns query.now.edns }
    requires room { 4096 ≤ reply.old.room }
    ensures replied { reply.new.bytes ≡ octets_within (version_refusal_of query.now) (limit_of query.now.edns) }
    ensures len { result ≡ length reply.new.bytes }
{
    reply.begin(query);
    reply.finish(false, BADVERS, limit_of(&query.edns), 0)
}
