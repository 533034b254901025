//! Replies of bounded length, and the reply to a packet.

ghost use Rattle.std.specs.Prelude.{◌≡◌, ◌+◌, ◌*◌, ◌≤◌, ◌++◌, ◌∷◌, [], codes, length, None, Some};
ghost use Rattle.std.specs.Prelude.{vec_capacity, vec_len};
ghost use Rattle.hex.specs.Hex.{encode_lower};
ghost use Rattle.line_faults.specs.declared.member.Member.TheVariants as m;
ghost use Rattle.reply_words.specs.Json.{check_text, collection_text, count, done, field, line_of};
ghost use Rattle.reply_words.specs.Dump.{zone_object};
ghost use Rattle.reply_words.specs.Pieces.{id_object};
ghost use Rattle.reply_words.specs.Lists.{query_reply};
ghost use Rattle.reply_words.specs.Outcomes.{reply_of, text_of};
ghost use Rattle.serde_json.specs.Data.{boolean, string};
ghost use Rattle.serde_json.specs.Written.{compact_text};

use crate::errors::write_error;
use crate::refusals::{write_fault, write_refusal};
use dns_name::Name;
use json_text::{put, put_flag, put_hex, put_number};
use line_faults::Member;
use query_lines::Ports;
use reply_words::{Outcome, Turns, put_id_object, put_member, put_zone};

/// The room that any reply takes but a list of sets and the reply to a packet, in octets.
pub const MOST_REPLY: usize = 8192;

/// Appends the line of an outcome.
#[tactic(auto, unfolding(reply_model::specs::Json::line_of))]
pub fn write_outcome(outcome: &Outcome, into: &mut Vec<u8>)
    requires { vec_len into.old + MOST_REPLY ≤ vec_capacity into.old }
    ensures text { into.new.items ≡ into.old.items ++ text_of outcome.now }
    ensures len { vec_len into.new ≤ vec_len into.old + MOST_REPLY }
    ensures room { vec_capacity into.old ≤ vec_capacity into.new }
{
    write_reply(outcome, into);
    put(b"\n", into);
}

/// The object of an outcome.
#[tactic(auto, unfolding(reply_model::specs::Outcomes::reply_of))]
fn write_reply(outcome: &Outcome, into: &mut Vec<u8>)
    requires room { vec_len into.old + 8000 ≤ vec_capacity into.old }
    ensures text { into.new.items ≡ into.old.items ++ compact_text (reply_of outcome.now) }
    ensures len { vec_len into.new ≤ vec_len into.old + 8000 }
    ensures room { vec_capacity into.old ≤ vec_capacity into.new }
{
    match outcome {
        Outcome::Done(line) => write_done(*line, into),
        Outcome::ZoneMade { id, name } => write_zone_made(*id, name, into),
        Outcome::CheckMade(id) => write_check_made(*id, into),
        Outcome::CollectionMade(id) => write_collection_made(*id, into),
        Outcome::Status { healthy, passing } => write_status(*healthy, *passing, into),
        Outcome::Bound(ports) => write_ports(ports, into),
        Outcome::Served(turns) => write_turns(turns, into),
        Outcome::Left(octets) => write_left(*octets, into),
        Outcome::Compacted(generation) => write_compacted(*generation, into),
        Outcome::Refused(why) => write_refusal(why, into),
        Outcome::NotRead(why) => write_fault(why, into),
        Outcome::LineTooLong => write_error(b"LineTooLong", 32, into),
        Outcome::BadChecker => write_error(b"BadChecker", 33, into),
        Outcome::NotBound => write_error(b"NotBound", 34, into),
        Outcome::AlreadyBound => write_error(b"AlreadyBound", 35, into),
        Outcome::GenerationsEnded => write_error(b"GenerationsEnded", 36, into),
    }
}

/// That the line of this name was done, and nothing else.
fn write_done(line: Member, into: &mut Vec<u8>)
    requires room { vec_len into.old + 8000 ≤ vec_capacity into.old }
    ensures text { into.new.items ≡ into.old.items ++ compact_text (done line []) }
    ensures len { vec_len into.new ≤ vec_len into.old + 8000 }
    ensures room { vec_capacity into.old ≤ vec_capacity into.new }
{
    put(b"{\"Ok\":", into);
    put_member(line, into);
    put(b"}", into);
}

/// The number and the name of a zone that was made.
fn write_zone_made(id: u32, name: &Name, into: &mut Vec<u8>)
    requires room { vec_len into.old + 8000 ≤ vec_capacity into.old }
    ensures text { into.new.items ≡ into.old.items ++ compact_text (done m.CreateHostedZone
        ((codes "HostedZone", zone_object id name.now) ∷ [])) }
    ensures len { vec_len into.new ≤ vec_len into.old + 8000 }
    ensures room { vec_capacity into.old ≤ vec_capacity into.new }
{
    put(b"{\"HostedZone\":", into);
    put_zone(id, name, into);
    put(b",\"Ok\":\"CreateHostedZone\"}", into);
}

/// The number of a health check that was made.
fn write_check_made(id: u32, into: &mut Vec<u8>)
    requires room { vec_len into.old + 8000 ≤ vec_capacity into.old }
    ensures text { into.new.items ≡ into.old.items ++ compact_text (done m.CreateHealthCheck
        ((codes "HealthCheck", id_object (check_text id)) ∷ [])) }
    ensures len { vec_len into.new ≤ vec_len into.old + 8000 }
    ensures room { vec_capacity into.old ≤ vec_capacity into.new }
{
    put(b"{\"HealthCheck\":", into);
    put_id_object(b'h', id, into);
    put(b",\"Ok\":\"CreateHealthCheck\"}", into);
}

/// The number of a collection that was made.
fn write_collection_made(id: u32, into: &mut Vec<u8>)
    requires room { vec_len into.old + 8000 ≤ vec_capacity into.old }
    ensures text { into.new.items ≡ into.old.items ++ compact_text (done m.CreateCidrCollection
        ((codes "Collection", id_object (collection_text id)) ∷ [])) }
    ensures len { vec_len into.new ≤ vec_len into.old + 8000 }
    ensures room { vec_capacity into.old ≤ vec_capacity into.new }
{
    put(b"{\"Collection\":", into);
    put_id_object(b'c', id, into);
    put(b",\"Ok\":\"CreateCidrCollection\"}", into);
}

/// The status of a health check.
fn write_status(healthy: bool, passing: u16, into: &mut Vec<u8>)
    requires room { vec_len into.old + 8000 ≤ vec_capacity into.old }
    ensures text { into.new.items ≡ into.old.items ++ compact_text (done m.GetHealthCheckStatus
        ((codes "Healthy", boolean healthy) ∷ (codes "Passing", count passing) ∷ [])) }
    ensures len { vec_len into.new ≤ vec_len into.old + 8000 }
    ensures room { vec_capacity into.old ≤ vec_capacity into.new }
{
    put(b"{\"Healthy\":", into);
    put_flag(healthy, into);
    put(b",\"Ok\":\"GetHealthCheckStatus\",\"Passing\":", into);
    put_number(passing as u64, into);
    put(b"}", into);
}

/// The ports of sockets.
fn write_ports(ports: &Ports, into: &mut Vec<u8>)
    requires room { vec_len into.old + 8000 ≤ vec_capacity into.old }
    ensures text { into.new.items ≡ into.old.items ++ compact_text (done m.Bind
        (field m.QueryPort (count ports.now.queries)
        ∷ field m.ReportPort (count ports.now.reports) ∷ [])) }
    ensures len { vec_len into.new ≤ vec_len into.old + 8000 }
    ensures room { vec_capacity into.old ≤ vec_capacity into.new }
{
    put(b"{\"Ok\":\"Bind\",\"QueryPort\":", into);
    put_number(ports.queries as u64, into);
    put(b",\"ReportPort\":", into);
    put_number(ports.reports as u64, into);
    put(b"}", into);
}

/// What turns came to.
fn write_turns(turns: &Turns, into: &mut Vec<u8>)
    requires room { vec_len into.old + 8000 ≤ vec_capacity into.old }
    ensures text { into.new.items ≡ into.old.items ++ compact_text (done m.Serve
        ((codes "Answered", count turns.now.answered)
        ∷ (codes "Quiet", count turns.now.quiet)
        ∷ (codes "Reports", count turns.now.reports)
        ∷ (codes "Silent", count turns.now.silent)
        ∷ (codes "Turns", count turns.now.turns)
        ∷ (codes "Unknown", count turns.now.unknown)
        ∷ [])) }
    ensures len { vec_len into.new ≤ vec_len into.old + 8000 }
    ensures room { vec_capacity into.old ≤ vec_capacity into.new }
{
    put(b"{\"Answered\":", into);
    put_number(turns.answered as u64, into);
    put(b",\"Ok\":\"Serve\",\"Quiet\":", into);
    put_number(turns.quiet as u64, into);
    put(b",\"Reports\":", into);
    put_number(turns.reports as u64, into);
    put(b",\"Silent\":", into);
    put_number(turns.silent as u64, into);
    put(b",\"Turns\":", into);
    put_number(turns.turns as u64, into);
    put(b",\"Unknown\":", into);
    put_number(turns.unknown as u64, into);
    put(b"}", into);
}

/// How many octets of a compaction are left.
fn write_left(left: u64, into: &mut Vec<u8>)
    requires room { vec_len into.old + 8000 ≤ vec_capacity into.old }
    ensures text { into.new.items
        ≡ into.old.items ++ compact_text (done m.Compact ((codes "Left", count left) ∷ [])) }
    ensures len { vec_len into.new ≤ vec_len into.old + 8000 }
    ensures room { vec_capacity into.old ≤ vec_capacity into.new }
{
    put(b"{\"Left\":", into);
    put_number(left, into);
    put(b",\"Ok\":\"Compact\"}", into);
}

/// The generation that a compaction has made.
fn write_compacted(generation: u64, into: &mut Vec<u8>)
    requires room { vec_len into.old + 8000 ≤ vec_capacity into.old }
    ensures text { into.new.items ≡ into.old.items
        ++ compact_text (done m.Compact ((codes "Generation", count generation) ∷ [])) }
    ensures len { vec_len into.new ≤ vec_len into.old + 8000 }
    ensures room { vec_capacity into.old ≤ vec_capacity into.new }
{
    put(b"{\"Generation\":", into);
    put_number(generation, into);
    put(b",\"Ok\":\"Compact\"}", into);
}

/// Appends the line of the reply to Query, where there is an answer of these octets.
#[tactic(auto, unfolding(reply_model::specs::Json::line_of, reply_model::specs::Lists::query_reply))]
pub fn write_answer(octets: &[u8], into: &mut Vec<u8>)
    requires { vec_len into.old + (2 * length octets.now + 64) ≤ vec_capacity into.old }
    ensures text { into.new.items ≡ into.old.items ++ line_of (query_reply (Some octets.now)) }
    ensures len { vec_len into.new ≤ vec_len into.old + (2 * length octets.now + 64) }
    ensures room { vec_capacity into.old ≤ vec_capacity into.new }
{
    write_octets(octets, into);
    put(b"\n", into);
}

/// The octets of an answer.
fn write_octets(octets: &[u8], into: &mut Vec<u8>)
    requires { vec_len into.old + (2 * length octets.now + 63) ≤ vec_capacity into.old }
    ensures text { into.new.items ≡ into.old.items ++ compact_text
        (done m.Query ((codes "Reply", string (encode_lower octets.now)) ∷ [])) }
    ensures len { vec_len into.new ≤ vec_len into.old + (2 * length octets.now + 63) }
    ensures room { vec_capacity into.old ≤ vec_capacity into.new }
{
    put(b"{\"Ok\":\"Query\",\"Reply\":", into);
    put_hex(octets, into);
    put(b"}", into);
}

/// Appends the line of the reply to Query, where there is no answer.
#[tactic(auto, unfolding(json::specs::Print::escape_byte, reply_model::specs::Json::line_of, reply_model::specs::Lists::query_reply))]
pub fn write_silence(into: &mut Vec<u8>)
    requires { vec_len into.old + 64 ≤ vec_capacity into.old }
    ensures text { into.new.items ≡ into.old.items ++ line_of (query_reply None) }
    ensures len { vec_len into.new ≤ vec_len into.old + 64 }
    ensures room { vec_capacity into.old ≤ vec_capacity into.new }
{
    put(b"{\"Ok\":\"Query\",\"Reply\":null}\n", into);
}
