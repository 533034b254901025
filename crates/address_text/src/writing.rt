//! The texts of addresses, written to a place of a buffer.

ghost use Rattle.std.specs.Prelude.{◌≡◌, ◌+◌, ◌≤◌, ◌++◌, length, take, drop, codes};
ghost use Rattle.std.specs.Net.Addr.{segments_of};
ghost use Rattle.std.specs.Net.Text.{ipv4_text, groups_text, hex_groups_text};
ghost use Rattle.address_text.specs.Spelling.{colon_hex};
ghost use Rattle.address_text.specs.Wrote.{Wrote};

use crate::groups::{longest_zero_run, write_groups};
use crate::pieces::{put, put_decimal};
use octets::fill_front;
use std::net::Ipv6Addr;

/// The fewest zero segments that `::` stands for (RFC 5952, 4.2.2).
const FEWEST_ELIDED: usize = 2;

/// Writes the four octets of an IPv4 address in dotted decimal at a place, and says where the text
/// ends.
pub fn write_ipv4(octets: &[u8], into: &mut [u8], at: usize) -> usize
    requires octets { length octets.now ≡ 4 }
    requires room { at + 15 ≤ length into.old }
    ensures end { result ≡ at + length (ipv4_text octets.now) }
    ensures short { result ≤ at + 15 }
    ensures written { into.new ≡ take at into.old ++ ipv4_text octets.now ++ drop result into.old }
{
    let mut end = put_decimal(octets[0], into, at);
    end = put(b".", into, end);
    end = put_decimal(octets[1], into, end);
    end = put(b".", into, end);
    end = put_decimal(octets[2], into, end);
    end = put(b".", into, end);
    put_decimal(octets[3], into, end)
}

/// Writes the sixteen octets of an IPv6 address as groups at a place, and says where the text ends
/// (RFC 5952, 4).
pub fn write_ipv6(octets: &[u8], into: &mut [u8], at: usize) -> usize
    requires octets { length octets.now ≡ 16 }
    requires room { at + 39 ≤ length into.old }
    ensures end { result ≡ at + length (colon_hex octets.now) }
    ensures short { result ≤ at + 39 }
    ensures written { into.new ≡ take at into.old ++ colon_hex octets.now ++ drop result into.old }
{
    write_segments(&segments_of(octets), into, at)
}

/// Writes eight segments at a place, the longest run of two zeros or more as `::`.
fn write_segments(segments: &[u16], into: &mut [u8], at: usize) -> usize
    requires segments { length segments.now ≡ 8 }
    requires room { at + 39 ≤ length into.old }
    ensures short { result ≤ at + 39 }
    ensures wrote { Wrote into.old into.new at result (hex_groups_text segments.now) }
{
    let (start, len) = longest_zero_run(segments);
    if len < FEWEST_ELIDED {
        return write_groups(segments, into, at);
    }
    write_around(
        &segments[..start],
        segments_behind(segments, start + len),
        into,
        at,
    )
}

/// Writes groups, `::` and groups at a place, and says where they end.
fn write_around(before: &[u16], behind: &[u16], into: &mut [u8], at: usize) -> usize
    requires few { length before.now + length behind.now ≤ 7 }
    requires room { at + 39 ≤ length into.old }
    ensures short { result ≤ at + 39 }
    ensures wrote { Wrote into.old into.new at result
        (groups_text before.now ++ codes "::" ++ groups_text behind.now) }
{
    let mut end = write_groups(before, into, at);
    end = put(b"::", into, end);
    write_groups(behind, into, end)
}

/// The segments from a place on.
fn segments_behind(segments: &[u16], at: usize) -> &[u16]
    requires { at ≤ length segments.now }
    ensures { result.now ≡ drop at segments.now }
{
    &segments[at..]
}

/// Two octets each as one segment.
fn segments_of(octets: &[u8]) -> [u16; 8]
    requires { length octets.now ≡ 16 }
    ensures { result ≡ segments_of octets.now }
{
    let mut all = [0; 16];
    fill_front(&mut all, octets);
    Ipv6Addr::from_octets(all).segments()
}
