//! Lines that ask as a packet would.

ghost use Rattle.std.specs.Prelude.{◌≡◌, ◌+◌, ◌/◌, ◌%◌, ◌≤◌, ◌++◌, codes, length, take};
ghost use Rattle.std.specs.Fmt.{decimal};
ghost use Rattle.hex.specs.Hex.{encode_lower};
ghost use Rattle.r53_gen.specs.Lines.{listed, packet, query, word};

use crate::changes::put_comma;
use crate::pieces::{put, put_hex, put_number};
use octets::{front, two_octets};

/// Writes a query for a label below example.com.
fn put_packet(id: u16, label: &[u8], into: &mut [u8]) -> usize
    requires label { length label.now ≤ 20 }
    requires room { 64 ≤ length into.old }
    ensures text { take result into.new ≡ packet id label.now }
    ensures end { result ≡ length (packet id label.now) }
    ensures within { result ≤ 60 }
{
    let at = put(&two_octets(id), 0, into);
    let at = put(&[0, 0, 0, 1, 0, 0, 0, 0, 0, 0], at, into);
    let at = put(&[label.len() as u8], at, into);
    let at = put(label, at, into);
    put(b"\x07example\x03com\x00\x00\x01\x00\x01", at, into)
}

/// Writes it in hexadecimal digits.
fn put_digits(id: u16, label: &[u8], at: usize, into: &mut [u8]) -> usize
    requires label { length label.now ≤ 20 }
    requires room { at + 120 ≤ length into.old }
    ensures text { take result into.new ≡ take at into.old ++ encode_lower (packet id label.now) }
    ensures end { result ≡ at + length (encode_lower (packet id label.now)) }
    ensures within { result ≤ at + 120 }
    ensures room { length into.new ≡ length into.old }
{
    let mut octets = [0; 64];
    let len = put_packet(id, label, &mut octets);
    put_hex(front(&octets, len), at, into)
}

/// Writes the eight words of a query.
fn put_words(j: u32, at: usize, into: &mut [u8]) -> usize
    requires { at + 100 ≤ length into.old }
    ensures text { take result into.new ≡ take at into.old ++ listed (word j) 8 }
    ensures end { result ≡ at + length (listed (word j) 8) }
    ensures within { result ≤ at + 100 }
    ensures room { length into.new ≡ length into.old }
{
    let mut at = at;
    for i in 0..8 {
        at = put_comma(i, at, into);
        at = put_number(j, at, into);
    }
    at
}

/// Writes a query line for a label below example.com.
pub(crate) fn put_query(k: u32, label: &[u8], into: &mut [u8]) -> usize
    requires label { length label.now ≤ 20 }
    requires room { 16384 ≤ length into.old }
    ensures text { take result into.new ≡ query k (k / 4) label.now }
    ensures end { result ≡ length (query k (k / 4) label.now) }
{
    let at = put(b"{\"Query\":{\"Packet\":\"", 0, into);
    let at = put_digits((k % 65536) as u16, label, at, into);
    let at = put(b"\",\"Address\":\"192.0.2.9\",\"Words\":[", at, into);
    let at = put_words(k / 4, at, into);
    put(b"]}}", at, into)
}

/// Writes a query line for one of the simple sets.
pub(crate) fn put_simple_query(k: u32, into: &mut [u8]) -> usize
    requires { 16384 ≤ length into.old }
    ensures text { take result into.new ≡ query k (k / 4) (codes "u" ++ decimal (k / 4 % 200)) }
    ensures end { result ≡ length (query k (k / 4) (codes "u" ++ decimal (k / 4 % 200))) }
{
    let mut label = [0; 20];
    let at = put(b"u", 0, &mut label);
    let len = put_number(k / 4 % 200, at, &mut label);
    put_query(k, front(&label, len), into)
}
