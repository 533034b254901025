//! The reply to a packet.

ghost use Rattle.std.specs.Prelude.{◌≡◌, ◌<◌, ◌≤◌, ℕ, Bool, None, IfSome, length};
ghost use Rattle.zone_lookup.specs.Reply.{Answers, is_refused, query_reply, reply_to_read};
ghost use Rattle.zone_lookup.specs.Sections.{sections};
ghost use Rattle.dns_message.specs.Verdict.{read_as};
ghost use Rattle.dns_message.specs.Whole.{GivesWhole, IsWhole};
ghost use Rattle.dns_wire.specs.Draft.{reply_to};
ghost use Rattle.dns_wire.specs.Header.{FitsRcode};
ghost use Rattle.dns_wire.specs.Limit.{limit_of as most_of};
ghost use Rattle.dns_wire.specs.Message.{octets_within};
ghost use Rattle.reply_records.specs.Groups.{Agrees};
ghost use Rattle.record_set.specs.declared.sets.SetKey.{SetKey};
ghost use Rattle.zone_lookup.specs.Served.{AreServed, IsFound};
ghost use Rattle.query_engine.specs.Asking.{answer_of, asker_of, served_by, zone_reply_of};

use crate::asking::{Asked, Progress};
use crate::client::{client_address, told_scope};
use crate::steps::look_up;
use address_text::IpAddress;
use dns_message::{Query, Verdict, blank_query, read_over};
use dns_name::Name;
use dns_wire::{Reply, limit_of};
use geo_latency::Tables;
use reply_records::{HealthView, views_agree};
use zone_lookup::{Scratch, Seen, Used, Zones, find_zone, zones_are_longest};

/// REFUSED (RFC 1035, 4.1.1).
const REFUSED: u16 = 5;

/// BADVERS (RFC 6891, 9).
const BADVERS: u16 = 16;

/// The most CNAME records of an answer (own).
const MOST_CNAMES: u8 = 8;

/// Makes the reply to a packet that came from `peer`, and says how many octets it has. Packets that
/// aren't heard have none.
pub fn answer<V: HealthView>(
    zones: &Zones,
    view: &V,
    tables: &Tables,
    packet: &[u8],
    peer: IpAddress,
    words: &[u64; 8],
    scratch: &mut Scratch,
    reply: &mut Reply,
) -> Option<usize>
    requires served { AreServed zones.now.zones }
    requires room { 4096 ≤ reply.old.room }

    // The reply is the one of the definitions, by each test of sets with which the view agrees.
    ensures answers { (healthy : ℕ → SetKey → Bool)
        → Agrees zones.now.zones (V.test view.now) healthy
        → Answers (served_by zones.now.zones zones.now.collections.list healthy tables.now)
        (asker_of peer words.now) packet.now (answer_of result reply.new) }
    ensures length { IfSome result (λ n. n ≡ length reply.new.bytes) }

    // The room stays, and where nothing is answered all of it.
    ensures room { reply.new.room ≡ reply.old.room }
    ensures silent { result ≡ None → reply.new ≡ reply.old }
{
    let mut query = blank_query();
    let verdict = read_over(packet, &mut query);
    answer_read(
        zones, view, tables, verdict, &query, peer, words, scratch, reply,
    )
}

/// The reply to what was read of a packet: its query isn't copied.
fn answer_read<V: HealthView>(
    zones: &Zones,
    view: &V,
    tables: &Tables,
    verdict: Verdict,
    query: &Query,
    peer: IpAddress,
    words: &[u64; 8],
    scratch: &mut Scratch,
    reply: &mut Reply,
) -> Option<usize>
    requires served { AreServed zones.now.zones }
    requires whole { GivesWhole (read_as verdict query.now) }
    requires room { 4096 ≤ reply.old.room }
    ensures answered { (healthy : ℕ → SetKey → Bool)
        → Agrees zones.now.zones (V.test view.now) healthy
        → answer_of result reply.new
        ≡ reply_to_read (served_by zones.now.zones zones.now.collections.list healthy tables.now)
        (asker_of peer words.now) (read_as verdict query.now) }
    ensures length { IfSome result (λ n. n ≡ length reply.new.bytes) }
    ensures room { reply.new.room ≡ reply.old.room }
    ensures silent { result ≡ None → reply.new ≡ reply.old }
{
    match verdict {
        Verdict::Silent => None,
        Verdict::Bad {
            id,
            opcode,
            rd,
            rcode,
        } => Some(reply.short(id, opcode, rd, rcode)),
        Verdict::BadVersion => Some(refuse(query, BADVERS, reply)),
        Verdict::Query => {
            let length = answer_query(zones, view, tables, query, peer, words, scratch, reply);
            Some(length)
        }
    }
}

/// The reply to a query without a record, with this RCODE.
fn refuse(query: &Query, rcode: u16, reply: &mut Reply) -> usize
    requires whole { IsWhole query.now }
    requires rcode { FitsRcode rcode query.now.edns }
    requires room { 4096 ≤ reply.old.room }
    ensures bytes { reply.new.bytes
        ≡ octets_within (record (reply_to query.now) { rcode = rcode }) (most_of query.now.edns) }
    ensures length { result ≡ length reply.new.bytes }
    ensures room { reply.new.room ≡ reply.old.room }
{
    reply.begin(query);
    reply.finish(false, rcode, limit_of(&query.edns), 0)
}

/// Whether a query asks for another class than IN, or for a type that isn't answered.
fn is_refused(query: &Query) -> bool
    ensures { result ≡ is_refused query.now }
{
    query.qclass != 1 || matches!(query.qtype, 251 | 252 | 255)
}

/// The reply to a query.
fn answer_query<V: HealthView>(
    zones: &Zones,
    view: &V,
    tables: &Tables,
    query: &Query,
    peer: IpAddress,
    words: &[u64; 8],
    scratch: &mut Scratch,
    reply: &mut Reply,
) -> usize
    requires served { AreServed zones.now.zones }
    requires whole { IsWhole query.now }
    requires room { 4096 ≤ reply.old.room }
    ensures bytes { (healthy : ℕ → SetKey → Bool)
        → Agrees zones.now.zones (V.test view.now) healthy
        → reply.new.bytes ≡ octets_within (query_reply
        (served_by zones.now.zones zones.now.collections.list healthy tables.now)
        (asker_of peer words.now) query.now) (most_of query.now.edns) }
    ensures length { result ≡ length reply.new.bytes }
    ensures room { reply.new.room ≡ reply.old.room }
{
    if is_refused(query) {
        return refuse(query, REFUSED, reply);
    }
    match find_zone(zones, &query.name) {
        None => refuse(query, REFUSED, reply),
        Some(found) => answer_in_zone(
            zones, found.0, found.1, view, tables, query, peer, words, scratch, reply,
        ),
    }
}

/// The reply from the zone that holds the name.
fn answer_in_zone<V: HealthView>(
    zones: &Zones,
    zone: u32,
    apex: &Name,
    view: &V,
    tables: &Tables,
    query: &Query,
    peer: IpAddress,
    words: &[u64; 8],
    scratch: &mut Scratch,
    reply: &mut Reply,
) -> usize
    requires served { AreServed zones.now.zones }
    requires zone { IsFound zones.now.zones query.now.name zone apex.now }
    requires whole { IsWhole query.now }
    requires room { 4096 ≤ reply.old.room }
    ensures bytes { (healthy : ℕ → SetKey → Bool)
        → Agrees zones.now.zones (V.test view.now) healthy
        → reply.new.bytes ≡ octets_within (zone_reply_of
        (served_by zones.now.zones zones.now.collections.list healthy tables.now)
        (asker_of peer words.now) query.now zones.now.zones zone apex.now)
        (most_of query.now.edns) }
    ensures length { result ≡ length reply.new.bytes }
    ensures room { reply.new.room ≡ reply.old.room }
{
    zones_are_longest();
    views_agree();
    zones.well_formed();
    reply.begin(query);
    let client = client_address(&query.edns, peer);
    let asked = Asked {
        zone,
        apex,
        qtype: query.qtype,
        client,
        words,
    };
    let mut progress = Progress {
        count: 0,
        used: Used {
            places: false,
            latencies: false,
            blocks: 0,
        },
        seen: Seen {
            places: None,
            latencies: None,
        },
    };
    let end = look_up(
        MOST_CNAMES,
        zones,
        view,
        tables,
        &asked,
        &query.name,
        &mut progress,
        reply,
        scratch,
    );
    let scope = told_scope(
        zones,
        tables,
        &query.edns,
        client,
        &progress.used,
        &progress.seen,
    );
    reply.finish(end.aa, end.rcode, limit_of(&query.edns), scope)
}
