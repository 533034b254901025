//! Reports.

ghost use Rattle.std.specs.Prelude.{◌≡◌, ◌+◌, ◌≤◌, ◌++◌, length, take};
ghost use Rattle.r53_gen.specs.Lines.{observation, passes};

use crate::pieces::{put, put_number};

/// Writes whether a report passes.
fn put_passes(j: u32, at: usize, into: &mut [u8]) -> usize
    requires { at + 5 ≤ length into.old }
    ensures text { take result into.new ≡ take at into.old ++ passes j }
    ensures end { result ≡ at + length (passes j) }
    ensures within { result ≤ at + 5 }
    ensures room { length into.new ≡ length into.old }
{
    if j / 1000 % 2 == 1 {
        put(b"true", at, into)
    } else {
        put(b"false", at, into)
    }
}

/// Writes a report of one checker on one check.
pub(crate) fn put_observation(j: u32, into: &mut [u8]) -> usize
    requires { 16384 ≤ length into.old }
    ensures text { take result into.new ≡ observation j }
    ensures end { result ≡ length (observation j) }
{
    let at = put(b"{\"Observe\":{\"HealthCheckId\":\"h", 0, into);
    let at = put_number(1 + j % 20, at, into);
    let at = put(b"\",\"Checker\":", at, into);
    let at = put_number(j / 20 % 50, at, into);
    let at = put(b",\"Pass\":", at, into);
    let at = put_passes(j, at, into);
    put(b"}}", at, into)
}
