//! The line of each number.

ghost use Rattle.std.specs.Prelude.{◌≡◌, ◌<◌, ◌≤◌, IfSome, IfNone, length, take};
ghost use Rattle.r53_gen.specs.Lines.{compaction, event_line, setup, setup_count};

use crate::changes::{put_leaves, put_pairs, put_tops, put_upsert};
use crate::events::put_observation;
use crate::pieces::put;
use crate::queries::{put_query, put_simple_query};

/// How many lines a drill begins with.
pub const SETUP_LINES: u32 = 24;

/// Writes a line of the setup to the front, and answers how long it is. None is told exactly past the
/// last one.
pub fn setup_line(i: u32, into: &mut [u8; 16384]) -> Option<usize>
    ensures text { IfSome result (λ n. take n into.new ≡ setup i) }
    ensures len { IfSome result (λ n. n ≡ length (setup i)) }
    ensures some { IfSome result (λ n. i < setup_count) }
    ensures none { IfNone result (setup_count ≤ i) }
{
    if i >= SETUP_LINES {
        return None;
    }
    Some(put_setup(i, into))
}

/// Writes a line of the setup.
fn put_setup(i: u32, into: &mut [u8]) -> usize
    requires { 16384 ≤ length into.old }
    ensures text { take result into.new ≡ setup i }
    ensures end { result ≡ length (setup i) }
{
    if i == 0 {
        return put(
            b"{\"CreateHostedZone\":{\"Name\":\"example.com\"}}",
            0,
            into,
        );
    }
    if i < 21 {
        return put(
            b"{\"CreateHealthCheck\":{\"HealthCheckConfig\":{\"Type\":\"TCP\",\"FailureThreshold\":1}}}",
            0,
            into,
        );
    }
    if i == 21 {
        return put_leaves(into);
    }
    if i == 22 {
        return put_pairs(into);
    }
    put_tops(into)
}

/// Writes the line of an event to the front, and answers how long it is.
pub fn event_line(k: u32, into: &mut [u8; 16384]) -> usize
    ensures text { take result into.new ≡ event_line k }
    ensures len { result ≡ length (event_line k) }
{
    put_event(k, into)
}

/// Writes the line of an event.
fn put_event(k: u32, into: &mut [u8]) -> usize
    requires { 16384 ≤ length into.old }
    ensures text { take result into.new ≡ event_line k }
    ensures end { result ≡ length (event_line k) }
{
    if k % 4 == 0 {
        return put_observation(k / 4, into);
    }
    if k % 4 == 1 {
        return put_query(k, b"top", into);
    }
    if k % 4 == 2 {
        return put_upsert(k / 4, into);
    }
    put_simple_query(k, into)
}

/// Writes the line that makes pieces of a compaction to the front, and answers how long it is.
pub fn compaction_line(into: &mut [u8; 16384]) -> usize
    ensures text { take result into.new ≡ compaction }
    ensures len { result ≡ length compaction }
{
    put(b"{\"Compact\":{\"Pieces\":1000}}", 0, into)
}
