//! Streams of std as a source and a sink.

use r53_io::{Got, Sink, Source};
use std::io::{self, ErrorKind, Read};
use std::process::Abort;
use stream_adapters::{Reading, Writing};

/// A reader that writes to the slice, and then fails.
#[derive(Drop)]
struct Failing;

impl Read for Failing {
    fn read(&mut self, buf: &mut [u8]) -> io::Result<usize> {
        buf.fill(b'x');
        Err(io::Error::from(ErrorKind::Interrupted))
    }
}

/// A read comes to this, and leaves the slice so.
fn check_read<S: Source>(
    rt: &impl Abort,
    input: &mut S,
    into: &mut [u8],
    got: Got,
    left: &[u8],
    what: &str,
) {
    assert_eq!(rt; input.read(into), got, "{what}");
    check_octets(rt, into, left, what);
}

/// Octets are these.
fn check_octets(rt: &impl Abort, found: &[u8], octets: &[u8], what: &str) {
    assert_eq!(rt; found, octets, "{what}");
}

/// Five octets are read.
fn read_five<S: Source>(rt: &impl Abort, input: &mut S) {
    let mut four = *b"----";
    check_read(
        rt,
        input,
        &mut four,
        Got::Bytes(4),
        b"abcd",
        "the first ones",
    );
    check_read(rt, input, &mut [], Got::Bytes(0), b"", "nothing is asked");
    let rest = b"ebcd";
    check_read(rt, input, &mut four, Got::Bytes(1), rest, "what is left");
    check_read(rt, input, &mut four, Got::Bytes(0), rest, "the end");
}

#[test]
fn octets_as_a_source(rt: HostRuntime) {
    let octets: &[u8] = b"abcde";
    let mut input = Reading::new(rt.alloc(), octets).expect(&rt, "a buffer");
    read_five(&rt, &mut input);
    drop(input);
}

#[test]
fn a_read_that_fails(rt: HostRuntime) {
    let mut input = Reading::new(rt.alloc(), Failing).expect(&rt, "a buffer");
    let mut two = *b"ab";
    check_read(
        &rt,
        &mut input,
        &mut two,
        Got::Failed,
        b"ab",
        "the slice stays",
    );
    drop(input);
}

/// A write comes to this.
fn check_write<K: Sink>(rt: &impl Abort, out: &mut K, octets: &[u8], got: Got, what: &str) {
    assert_eq!(rt; out.write(octets), got, "{what}");
}

/// Octets are written, and none.
fn write_some<K: Sink>(rt: &impl Abort, out: &mut K) {
    check_write(rt, out, b"ab", Got::Bytes(2), "it takes all");
    check_write(rt, out, b"", Got::Bytes(0), "nothing is written");
    check_write(rt, out, b"c", Got::Bytes(1), "it takes all");
}

#[test]
fn a_vector_as_a_sink(rt: HostRuntime) {
    let mut held = Vec::new(rt.alloc());
    let mut out = Writing::new(&mut held);
    write_some(&rt, &mut out);
    drop(out);
    check_octets(&rt, &held, b"abc", "in turn");
    drop(held);
}

/// More is written than there is room for.
fn write_too_much<K: Sink>(rt: &impl Abort, out: &mut K) {
    let what = "as many as there is room for";
    check_write(rt, out, b"abcd", Got::Bytes(3), what);
    check_write(rt, out, b"d", Got::Bytes(0), "nothing is taken");
}

#[test]
fn a_sink_without_room(rt: HostRuntime) {
    let mut room = *b"---";
    let mut out = Writing::new(room.as_mut_slice());
    write_too_much(&rt, &mut out);
    drop(out);
    check_octets(&rt, &room, b"abc", "what was taken");
}
