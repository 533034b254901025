//! How many octets a reply over UDP may have.

ghost use Rattle.std.specs.Prelude.{◌≡◌, ◌≤◌};
ghost use Rattle.dns_wire.specs.Limit.{limit_of};

use dns_message::Edns;

/// The most octets of a reply to a query without EDNS (RFC 1035, 4.2.1), and the least to one with
/// it (RFC 6891, 6.2.3).
const LEAST: usize = 512;

/// The most octets of a reply.
const MOST: usize = 4096;

/// How many octets a reply over UDP may have, by what the query's OPT record tells.
pub fn limit_of(edns: &Option<Edns>) -> usize
    ensures limit { result ≡ limit_of edns.now }
    ensures least { 512 ≤ result }
    ensures most { result ≤ 4096 }
{
    match edns {
        Some(edns) => usize::from(edns.size).min(MOST).max(LEAST),
        None => LEAST,
    }
}
