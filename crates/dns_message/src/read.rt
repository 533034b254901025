//! A packet judged by its header first, then by its question and its additional records, up to the
//! first fault.

ghost use Rattle.std.specs.Prelude.{◌≡◌, ℕ, ◌+◌, ◌-◌, ◌≤◌, List, ◌++◌, length, IsTrue, ◌↔◌, IfSome, IfNone, None, take, drop, replicate};
ghost use Rattle.octets.specs.Numbers.{number_at};
ghost use Rattle.dns_message.specs.Header.{id_of, opcode_of, rd_of, HasQueryCounts};
ghost use Rattle.dns_message.specs.Judge.{Judges, query_of};
ghost use Rattle.dns_message.specs.Question.{Asks, HasNoQuestion};
ghost use Rattle.dns_message.specs.Verdict.{read_as};
ghost use Rattle.dns_message.specs.Whole.{GivesWhole};

use crate::edns::{read_opt, version_of};
use crate::rcode::{FORMERR, NOTIMP};
use crate::records::opt_among;
use crate::verdict::Verdict;
use crate::walked::Walked;
use crate::{Query, QueryRead};
use dns_name::Name;
use octets::{behind, fill_front, number_at};

/// The octets of a header (RFC 1035, 4.1.1).
const HEADER_LEN: usize = 12;

/// Reads a query from a packet, or says what is wrong with it first.
#[inline(always)]
pub fn read_query(packet: &[u8]) -> QueryRead
    ensures judges { Judges packet.now result }
    ensures whole { GivesWhole result }
{
    let mut query = blank_query();
    // Each case returns by itself: where they come together first, the query is copied once more.
    match read_over(packet, &mut query) {
        Verdict::Silent => return QueryRead::Silent,
        Verdict::Bad {
            id,
            opcode,
            rd,
            rcode,
        } => {
            return QueryRead::Bad {
                id,
                opcode,
                rd,
                rcode,
            };
        }
        Verdict::BadVersion => return QueryRead::BadVersion(query),
        Verdict::Query => return QueryRead::Query(query),
    }
}

/// Reads a query over a blank one, or says what is wrong with the packet first: what is read
/// stands in its caller's place, and isn't copied.
pub fn read_over(packet: &[u8], query: &mut Query) -> Verdict
    requires { query.old.question ≡ replicate 259 0 }
    ensures judges { Judges packet.now (read_as result query.new) }
    ensures whole { GivesWhole (read_as result query.new) }
{
    if packet.len() < HEADER_LEN {
        return Verdict::Silent;
    }
    if packet[2] >= 128 {
        return Verdict::Silent;
    }
    if opcode(packet) != 0 {
        return bad(packet, NOTIMP);
    }
    if !has_query_counts(packet) {
        return bad(packet, FORMERR);
    }
    let Some(question_len) = question_at(packet, &mut query.name) else {
        return bad(packet, FORMERR);
    };
    fill(query, packet, question_len);
    let records = behind(packet, HEADER_LEN + question_len);
    let opt = match opt_among(records, number_at(packet, 10)) {
        Walked::Broken => return bad(packet, FORMERR),
        Walked::Plain => return Verdict::Query,
        Walked::At(at) => behind(records, at),
    };
    let Some(is_malformed) = read_opt(opt, &mut query.edns) else {
        return bad(packet, FORMERR);
    };
    if version_of(opt) > 0 {
        return Verdict::BadVersion;
    }
    if is_malformed {
        return bad(packet, FORMERR);
    }
    Verdict::Query
}

/// A query for the root, of zeros.
#[inline(always)]
pub fn blank_query() -> Query
    ensures { result.question ≡ replicate 259 0 }
{
    Query {
        id: 0,
        rd: false,
        question: [0; 259],
        question_len: 0,
        name: Name::root(),
        qtype: 0,
        qclass: 0,
        edns: None,
    }
}

/// The kind of query (RFC 1035, 4.1.1).
fn opcode(packet: &[u8]) -> u8
    requires { 12 ≤ length packet.now }
    ensures { result ≡ opcode_of packet.now }
{
    packet[2] / 8 % 16
}

/// Recursion desired.
fn recursion_desired(packet: &[u8]) -> bool
    requires { 12 ≤ length packet.now }
    ensures { result ≡ rd_of packet.now }
{
    packet[2] % 2 == 1
}

/// Whether there is one question, and neither an answer nor an authority.
fn has_query_counts(packet: &[u8]) -> bool
    requires { 12 ≤ length packet.now }
    ensures { IsTrue result ↔ HasQueryCounts packet.now }
{
    number_at(packet, 4) == 1 && number_at(packet, 6) == 0 && number_at(packet, 8) == 0
}

/// The answer to a packet that is no query.
fn bad(packet: &[u8], rcode: u8) -> Verdict
    requires { 12 ≤ length packet.now }
    ensures { result
        ≡ Verdict.Bad (id_of packet.now) (opcode_of packet.now) (rd_of packet.now) rcode }
{
    Verdict::Bad {
        id: number_at(packet, 0),
        opcode: opcode(packet),
        rd: recursion_desired(packet),
        rcode,
    }
}

/// Reads the question's name, and says how many octets the question has.
fn question_at(packet: &[u8], name: &mut Name) -> Option<usize>
    requires { 12 ≤ length packet.now }
    ensures some { IfSome result (λ n. Asks packet.now name.new n) }
    ensures only { IfSome result (λ n. (labels : List (List ℕ)) (m : ℕ)
        → Asks packet.now labels m → m ≡ n) }
    ensures none { IfNone result (HasNoQuestion packet.now) }
{
    let body = behind(packet, HEADER_LEN);
    let Some(name_len) = name.read_wire(body) else {
        return None;
    };
    if body.len() - name_len < 4 {
        return None;
    }
    Some(name_len + 4)
}

/// Fills a query whose name is that of the question with all that stands before the records.
fn fill(query: &mut Query, packet: &[u8], question_len: usize)
    requires asks { Asks packet.now query.old.name question_len }
    requires zeros { query.old.question ≡ replicate 259 0 }
    ensures { query.new ≡ query_of packet.now query.old.name question_len None }
{
    query.id = number_at(packet, 0);
    query.rd = recursion_desired(packet);
    fill_zeros(
        &mut query.question,
        &packet[HEADER_LEN..HEADER_LEN + question_len],
    );
    query.question_len = question_len;
    query.qtype = number_at(packet, 8 + question_len);
    query.qclass = number_at(packet, 10 + question_len);
    query.edns = None;
}

/// Writes a question's octets over zeros.
#[tactic(auto, using(crate::proofs::Question::padding))]
fn fill_zeros(into: &mut [u8; 259], question: &[u8])
    requires zeros { into.old ≡ replicate 259 0 }
    requires room { length question.now ≤ 259 }
    ensures { into.new ≡ question.now ++ replicate (259 - length question.now) 0 }
{
    fill_front(into, question);
}
