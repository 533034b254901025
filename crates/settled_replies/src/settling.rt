//! The reply to a packet, where it is settled.

ghost use Rattle.std.specs.Prelude.{◌≡◌, ◌≤◌, ◌↔◌, ℕ, Bool, None, Some, IfSome, IsSome, drop, length};
ghost use Rattle.dns_message.specs.Whole.{IsWhole};
ghost use Rattle.dns_wire.specs.Limit.{limit_of as most_of};
ghost use Rattle.dns_wire.specs.Message.{Message, octets_within};
ghost use Rattle.dns_wire.specs.declared.reply.Section.TheVariants.{Answer};
ghost use Rattle.query_engine.specs.Adding.{WritesAll};
ghost use Rattle.query_engine.specs.Asking.{served_by};
ghost use Rattle.query_engine.specs.Reply.{is_refused};
ghost use Rattle.query_engine.specs.Sections.{Sections, cut_above};
ghost use Rattle.query_engine.specs.Served.{IsFound, hosted_of, zone_of};
ghost use Rattle.record_set.specs.declared.sets.SetKey.{SetKey};
ghost use Rattle.reply_records.specs.Groups.{Agrees};
ghost use Rattle.reply_records.specs.Writing.{TakesRecords};
ghost use Rattle.settled_replies.specs.Findings.{HasSections, CanBeWritten, RepliesToAll, RepliesToAllFrom, reply_with};
ghost use Rattle.settled_replies.specs.Settled.{AnswersAll, IsSettled};
ghost use Rattle.settled_replies.specs.Settling.{CanSettle, CanSettleBelow, CanSettleQuery};
ghost use Rattle.zone_lookup.specs.Served.{AreServed};

use crate::findings::{Finding, finding_in};
use dns_message::{Query, Verdict, blank_query, one_judgement, read_over};
use dns_name::Name;
use dns_wire::{Reply, limit_of, records_add_up};
use geo_latency::Tables;
use query_engine::{HealthView, Scratch, Zones};
use reply_records::{write_delegation, write_first, write_soa};
use zone_lookup::{cuts_are_nearest, find_zone};

/// Makes the reply to a packet where it is the same whoever asks, as long as no set becomes healthy or unhealthy, and
/// says how many octets it has: where one set answers the name, or the wildcard for it, alone, that a failover chooses
/// perhaps, or a place, a latency or a block of the subnet that the query tells; where there is no set of the type, nor
/// a CNAME set, or the name doesn't exist; and where it is at or below a zone cut. None else, though to other packets
/// the reply may be the same for all, too, such as to one that is refused, or of a name with one weighted set alone. It
/// takes no memory.
pub fn settle<V: HealthView>(
    zones: &Zones,
    view: &V,
    tables: &Tables,
    packet: &[u8],
    scratch: &mut Scratch,
    reply: &mut Reply,
) -> Option<usize>
    requires served { AreServed zones.now.zones }
    requires room { 4096 ≤ reply.old.room }

    // It is by each test of sets with which the view agrees.
    ensures answers { IfSome result (λ n. (healthy : (zone : ℕ) → SetKey → Bool)
        → Agrees zones.now.zones (V.test view.now) healthy
        → AnswersAll (hosted_of zones.now.zones) zones.now.collections.list healthy tables.now packet.now
        reply.new.bytes) }

    // With each ID.
    ensures settled { IfSome result (λ n. (healthy : (zone : ℕ) → SetKey → Bool)
        → Agrees zones.now.zones (V.test view.now) healthy
        → IsSettled (hosted_of zones.now.zones) zones.now.collections.list healthy tables.now
        (drop 2 packet.now) (drop 2 reply.new.bytes)) }

    // These packets are settled, and no others.
    ensures exact { (healthy : (zone : ℕ) → SetKey → Bool) → Agrees zones.now.zones (V.test view.now) healthy
        → (IsSome result ↔ CanSettle (served_by zones.now.zones zones.now.collections.list healthy tables.now) packet.now) }
    ensures length { IfSome result (λ n. n ≡ length reply.new.bytes) }

    // The room stays, and where nothing is settled all of the reply.
    ensures room { reply.new.room ≡ reply.old.room }
    ensures unsettled { result ≡ None → reply.new ≡ reply.old }
{
    one_judgement();
    let mut query = blank_query();
    match read_over(packet, &mut query) {
        Verdict::Silent => None,
        Verdict::Bad {
            id: _,
            opcode: _,
            rd: _,
            rcode: _,
        } => None,
        Verdict::BadVersion => None,
        Verdict::Query => settle_query(zones, view, tables, &query, scratch, reply),
    }
}

/// The reply to a query, where it is the same whoever asks.
fn settle_query<V: HealthView>(
    zones: &Zones,
    view: &V,
    tables: &Tables,
    query: &Query,
    scratch: &mut Scratch,
    reply: &mut Reply,
) -> Option<usize>
    requires served { AreServed zones.now.zones }
    requires whole { IsWhole query.now }
    requires room { 4096 ≤ reply.old.room }
    ensures settled { IfSome result (λ n. (message : Message)
        × ((healthy : (zone : ℕ) → SetKey → Bool) → Agrees zones.now.zones (V.test view.now) healthy
        → RepliesToAll (served_by zones.now.zones zones.now.collections.list healthy tables.now) query.now message)
        × (reply.new.bytes ≡ octets_within message (most_of query.now.edns))) }
    ensures exact { (healthy : (zone : ℕ) → SetKey → Bool) → Agrees zones.now.zones (V.test view.now) healthy
        → (IsSome result ↔ CanSettleQuery (served_by zones.now.zones zones.now.collections.list healthy tables.now) query.now) }
    ensures length { IfSome result (λ n. n ≡ length reply.new.bytes) }
    ensures room { reply.new.room ≡ reply.old.room }
    ensures unsettled { result ≡ None → reply.new ≡ reply.old }
{
    if is_refused(query) {
        return None;
    }
    match find_zone(zones, &query.name) {
        None => None,
        Some(found) => settle_in(zones, view, tables, found.0, found.1, query, scratch, reply),
    }
}

/// Whether a query asks for another class than IN, or for a type that isn't answered.
fn is_refused(query: &Query) -> bool
    ensures { result ≡ is_refused query.now }
{
    query.qclass != 1 || matches!(query.qtype, 251 | 252 | 255)
}

/// The same from the zone that holds the name.
fn settle_in<V: HealthView>(
    zones: &Zones,
    view: &V,
    tables: &Tables,
    zone: u32,
    apex: &Name,
    query: &Query,
    scratch: &mut Scratch,
    reply: &mut Reply,
) -> Option<usize>
    requires served { AreServed zones.now.zones }
    requires found { IsFound zones.now.zones query.now.name zone apex.now }
    requires whole { IsWhole query.now }
    requires room { 4096 ≤ reply.old.room }
    ensures settled { IfSome result (λ n. (found : Sections) × (scope : ℕ)
        × ((healthy : (zone : ℕ) → SetKey → Bool) → Agrees zones.now.zones (V.test view.now) healthy
        → RepliesToAllFrom (served_by zones.now.zones zones.now.collections.list healthy tables.now)
        (zone_of zones.now.zones zone apex.now) query.now found scope)
        × (reply.new.bytes ≡ octets_within (reply_with query.now found scope) (most_of query.now.edns))) }
    ensures exact { (healthy : (zone : ℕ) → SetKey → Bool) → Agrees zones.now.zones (V.test view.now) healthy
        → (IsSome result ↔ CanSettleBelow (served_by zones.now.zones zones.now.collections.list healthy tables.now) query.now
        (zone_of zones.now.zones zone apex.now) (cut_above (zone_of zones.now.zones zone apex.now) query.now.name)) }
    ensures length { IfSome result (λ n. n ≡ length reply.new.bytes) }
    ensures room { reply.new.room ≡ reply.old.room }
    ensures unsettled { result ≡ None → reply.new ≡ reply.old }
{
    let Some(finding) = finding_in(zones, view, tables, zone, apex, query, scratch) else {
        return None;
    };
    reply.begin(query);
    write_finding(zones, zone, apex, &query.name, &finding, reply, scratch);
    let limit = limit_of(&query.edns);
    Some(reply.finish(finding.aa(), finding.rcode(), limit, finding.scope()))
}

/// Writes the records of what is found.
fn write_finding(
    zones: &Zones,
    zone: u32,
    apex: &Name,
    name: &Name,
    finding: &Finding,
    reply: &mut Reply,
    scratch: &mut Scratch,
)
    requires there { CanBeWritten zones.now.zones (zone_of zones.now.zones zone apex.now) name.now scratch.old finding.now }
    requires open { TakesRecords Answer reply.old }
    ensures { (found : Sections) → HasSections zones.now.zones (zone_of zones.now.zones zone apex.now) name.now
        scratch.old finding.now found → WritesAll found reply.old reply.new }
{
    records_add_up();
    cuts_are_nearest();
    match finding {
        Finding::Set(_) => write_first(name, reply, scratch),
        Finding::NoData => write_soa(zones, zone, apex, reply, scratch),
        Finding::NoName => write_soa(zones, zone, apex, reply, scratch),
        Finding::Referral(cut) => write_delegation(zones, *cut, reply, scratch),
    }
}
