//! Changes of a batch, and the batches of the setup.

ghost use Rattle.std.specs.Prelude.{◌≡◌, ◌+◌, ◌≤◌, ◌<◌, ◌++◌, length, take};
ghost use Rattle.r53_gen.specs.Lines.{batch, comma, failover_set, failover_sets, listed, opening};
ghost use Rattle.r53_gen.specs.Lines.{top_set, upsert, weighted_set, weighted_sets};

use crate::pieces::{put, put_number};

/// Writes what stands before the text of a row's place.
pub(crate) fn put_comma(i: u32, at: usize, into: &mut [u8]) -> usize
    requires { at + 1 ≤ length into.old }
    ensures text { take result into.new ≡ take at into.old ++ comma i }
    ensures end { result ≡ at + length (comma i) }
    ensures within { result ≤ at + 1 }
    ensures room { length into.new ≡ length into.old }
{
    if i == 0 { at } else { put(b",", at, into) }
}

/// Writes what a batch begins with.
fn open_batch(into: &mut [u8]) -> usize
    requires { 100 ≤ length into.old }
    ensures text { take result into.new ≡ opening }
    ensures end { result ≡ length opening }
    ensures within { result ≤ 100 }
    ensures room { length into.new ≡ length into.old }
{
    put(
        b"{\"ChangeResourceRecordSets\":{\"HostedZoneId\":\"Z1\",\"ChangeBatch\":{\"Changes\":[",
        0,
        into,
    )
}

/// Writes a weighted set.
fn put_weighted_set(i: u32, ident: &[u8], last: u32, at: usize, into: &mut [u8]) -> usize
    requires number { i < 20 }
    requires short { length ident.now ≡ 1 }
    requires room { at + 240 ≤ length into.old }
    ensures text { take result into.new ≡ take at into.old ++ weighted_set i ident.now last }
    ensures end { result ≡ at + length (weighted_set i ident.now last) }
    ensures within { result ≤ at + 240 }
    ensures room { length into.new ≡ length into.old }
{
    let at = put(
        b"{\"Action\":\"CREATE\",\"ResourceRecordSet\":{\"Name\":\"l",
        at,
        into,
    );
    let at = put_number(i, at, into);
    let at = put(
        b".example.com\",\"Type\":\"A\",\"SetIdentifier\":\"",
        at,
        into,
    );
    let at = put(ident, at, into);
    let at = put(
        b"\",\"Weight\":1,\"TTL\":60,\"ResourceRecords\":[{\"Value\":\"192.0.2.",
        at,
        into,
    );
    let at = put_number(last, at, into);
    let at = put(b"\"}],\"HealthCheckId\":\"h", at, into);
    let at = put_number(i + 1, at, into);
    put(b"\"}}", at, into)
}

/// Writes the two weighted sets of a name.
fn put_weighted_sets(i: u32, at: usize, into: &mut [u8]) -> usize
    requires number { i < 20 }
    requires room { at + 500 ≤ length into.old }
    ensures text { take result into.new ≡ take at into.old ++ weighted_sets i }
    ensures end { result ≡ at + length (weighted_sets i) }
    ensures within { result ≤ at + 500 }
    ensures room { length into.new ≡ length into.old }
{
    let at = put_weighted_set(i, b"a", 2 * i + 1, at, into);
    let at = put(b",", at, into);
    put_weighted_set(i, b"b", 2 * i + 2, at, into)
}

/// Writes the batch of the weighted sets.
pub(crate) fn put_leaves(into: &mut [u8]) -> usize
    requires { 16384 ≤ length into.old }
    ensures text { take result into.new ≡ batch (listed weighted_sets 20) }
    ensures end { result ≡ length (batch (listed weighted_sets 20)) }
{
    let mut at = open_batch(into);
    for i in 0..20 {
        at = put_comma(i, at, into);
        at = put_weighted_sets(i, at, into);
    }
    put(b"]}}}", at, into)
}

/// Writes a failover set.
fn put_failover_set(
    i: u32,
    ident: &[u8],
    role: &[u8],
    target: u32,
    at: usize,
    into: &mut [u8],
) -> usize
    requires short { length ident.now ≡ 1 }
    requires named { length role.now ≤ 9 }
    requires room { at + 260 ≤ length into.old }
    ensures text { take result into.new
        ≡ take at into.old ++ failover_set i ident.now role.now target }
    ensures end { result ≡ at + length (failover_set i ident.now role.now target) }
    ensures within { result ≤ at + 260 }
    ensures room { length into.new ≡ length into.old }
{
    let at = put(
        b"{\"Action\":\"CREATE\",\"ResourceRecordSet\":{\"Name\":\"t",
        at,
        into,
    );
    let at = put_number(i, at, into);
    let at = put(
        b".example.com\",\"Type\":\"A\",\"SetIdentifier\":\"",
        at,
        into,
    );
    let at = put(ident, at, into);
    let at = put(b"\",\"Failover\":\"", at, into);
    let at = put(role, at, into);
    let at = put(
        b"\",\"AliasTarget\":{\"HostedZoneId\":\"Z1\",\"DNSName\":\"l",
        at,
        into,
    );
    let at = put_number(target, at, into);
    put(b".example.com\",\"EvaluateTargetHealth\":true}}}", at, into)
}

/// Writes the two failover sets of a name.
fn put_failover_sets(i: u32, at: usize, into: &mut [u8]) -> usize
    requires number { i < 10 }
    requires room { at + 540 ≤ length into.old }
    ensures text { take result into.new ≡ take at into.old ++ failover_sets i }
    ensures end { result ≡ at + length (failover_sets i) }
    ensures within { result ≤ at + 540 }
    ensures room { length into.new ≡ length into.old }
{
    let at = put_failover_set(i, b"p", b"PRIMARY", 2 * i, at, into);
    let at = put(b",", at, into);
    put_failover_set(i, b"s", b"SECONDARY", 2 * i + 1, at, into)
}

/// Writes the batch of the failover sets.
pub(crate) fn put_pairs(into: &mut [u8]) -> usize
    requires { 16384 ≤ length into.old }
    ensures text { take result into.new ≡ batch (listed failover_sets 10) }
    ensures end { result ≡ length (batch (listed failover_sets 10)) }
{
    let mut at = open_batch(into);
    for i in 0..10 {
        at = put_comma(i, at, into);
        at = put_failover_sets(i, at, into);
    }
    put(b"]}}}", at, into)
}

/// Writes a weighted set of the name above all.
fn put_top_set(i: u32, at: usize, into: &mut [u8]) -> usize
    requires { at + 260 ≤ length into.old }
    ensures text { take result into.new ≡ take at into.old ++ top_set i }
    ensures end { result ≡ at + length (top_set i) }
    ensures within { result ≤ at + 260 }
    ensures room { length into.new ≡ length into.old }
{
    let at = put(
        b"{\"Action\":\"CREATE\",\"ResourceRecordSet\":{\"Name\":\"top.example.com\",\"Type\":\"A\",\"SetIdentifier\":\"",
        at,
        into,
    );
    let at = put_number(i, at, into);
    let at = put(
        b"\",\"Weight\":1,\"AliasTarget\":{\"HostedZoneId\":\"Z1\",\"DNSName\":\"t",
        at,
        into,
    );
    let at = put_number(i, at, into);
    put(b".example.com\",\"EvaluateTargetHealth\":true}}}", at, into)
}

/// Writes the batch of these.
pub(crate) fn put_tops(into: &mut [u8]) -> usize
    requires { 16384 ≤ length into.old }
    ensures text { take result into.new ≡ batch (listed top_set 10) }
    ensures end { result ≡ length (batch (listed top_set 10)) }
{
    let mut at = open_batch(into);
    for i in 0..10 {
        at = put_comma(i, at, into);
        at = put_top_set(i, at, into);
    }
    put(b"]}}}", at, into)
}

/// Writes a batch with one simple set.
pub(crate) fn put_upsert(j: u32, into: &mut [u8]) -> usize
    requires { 16384 ≤ length into.old }
    ensures text { take result into.new ≡ upsert j }
    ensures end { result ≡ length (upsert j) }
{
    let at = open_batch(into);
    let at = put(
        b"{\"Action\":\"UPSERT\",\"ResourceRecordSet\":{\"Name\":\"u",
        at,
        into,
    );
    let at = put_number(j % 100, at, into);
    let at = put(
        b".example.com\",\"Type\":\"A\",\"TTL\":60,\"ResourceRecords\":[{\"Value\":\"198.51.100.",
        at,
        into,
    );
    let at = put_number(j % 256, at, into);
    let at = put(b"\"}]}}", at, into);
    put(b"]}}}", at, into)
}
