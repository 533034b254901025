//! Octets of sets, written and read.

use crate::sets::{ident, name, set, values};
use rdata::RType;
use record_set::{Body, Place, RecordSet, Region, Routing, Sub, same};
use set_octets::{has_spelling, is_long, write_set};
use set_reading::{ReadFault, read_set};
use std::alloc::Global;
use std::process::Abort;

/// The octets of a set behind another octet.
fn written(rt: &impl Abort, alloc: Global, set: &RecordSet) -> Vec<u8> {
    let mut into = Vec::new(alloc);
    assert!(rt; into.push(0xee).is_ok(), "memory");
    assert!(rt; has_spelling(set), "a spelling");
    assert!(rt; write_set(set, &mut into).is_ok(), "memory");
    into
}

/// Writes a set, and compares its octets.
fn compare_written(rt: &impl Abort, alloc: Global, set: &RecordSet, octets: &[u8]) {
    assert!(rt; !is_long(set), "no more octets than a set may have");
    let written = written(rt, alloc, set);
    assert_eq!(rt; written.get(0), Some(&0xee), "what stands before");
    assert_eq!(rt; written.get(1..), Some(octets), "{octets:?}");
}

/// Reads octets, and compares the set.
fn compare_read(rt: &impl Abort, alloc: Global, set: &RecordSet, octets: &[u8]) {
    let (again, len) = read_set(alloc, octets).expect(rt, "a set");
    assert!(rt; same(&again, set), "read again: {octets:?}");
    assert_eq!(rt; len, octets.len(), "all of them");
}

/// Compares the octets of a set.
fn compare(rt: &impl Abort, alloc: Global, set: RecordSet, octets: &[u8]) {
    compare_written(rt, alloc, &set, octets);
    compare_read(rt, alloc, &set, octets);
}

/// The address 192.0.2.1.
fn address(rt: &impl Abort, alloc: Global, routing: Routing) -> RecordSet {
    let body = values(rt, alloc, RType::A, &[b"192.0.2.1"]);
    set(name(rt, b"WWW.a"), RType::A, routing, body)
}

/// A weighted set with a check.
fn checked(rt: &impl Abort, alloc: Global) -> RecordSet {
    let body = values(rt, alloc, RType::Caa, &[b"0 issue \"\""]);
    let routing = Routing::Weighted(ident(rt, b"x y"), 255);
    RecordSet {
        check: Some(7),
        ..set(name(rt, b"WWW.a"), RType::Caa, routing, body)
    }
}

/// The policy of a set for Texas.
fn texas(rt: &impl Abort) -> Routing {
    let texas = Sub::new(b"TX").expect(rt, "a subdivision");
    Routing::Geolocation(ident(rt, b"t"), Place::Subdivision(*b"US", texas))
}

/// The policy of a set for a location of the collection 258.
fn office(rt: &impl Abort) -> Routing {
    Routing::Cidr(ident(rt, b"c"), 258, ident(rt, b"office"))
}

/// An alias to the root that is evaluated, in a region.
fn alias(rt: &impl Abort) -> RecordSet {
    let region = Region::new(b"eu-west-1").expect(rt, "a region");
    let body = Body::Alias {
        target: name(rt, b"."),
        evaluate: true,
    };
    let routing = Routing::Latency(ident(rt, b"l"), region);
    set(name(rt, b"WWW.a"), RType::Aaaa, routing, body)
}

#[test]
fn octets_of_sets(rt: HostRuntime) {
    // www.a. A, simple, TTL 300, one value, no check
    compare(
        &rt,
        rt.alloc(),
        address(&rt, rt.alloc(), Routing::Simple),
        b"\x03www\x01a\0\0\x01\0\0\0\0\x01\x2c\0\x01\0\x04\xc0\0\x02\x01\0",
    );
    // weight 255, identifier `x y`, check 7
    compare(
        &rt,
        rt.alloc(),
        checked(&rt, rt.alloc()),
        b"\x03www\x01a\0\x01\x01\x01\x03x y\xff\0\0\0\x01\x2c\0\x01\0\x07\0\x05issue\x01\0\0\0\x07",
    );
    // Texas
    compare(
        &rt,
        rt.alloc(),
        address(&rt, rt.alloc(), texas(&rt)),
        b"\x03www\x01a\0\0\x01\x03\x01t\x03US\x02TX\0\0\0\x01\x2c\0\x01\0\x04\xc0\0\x02\x01\0",
    );
    // the location `office` of the collection 258
    compare(
        &rt,
        rt.alloc(),
        address(&rt, rt.alloc(), office(&rt)),
        b"\x03www\x01a\0\0\x01\x06\x01c\0\0\x01\x02\x06office\0\0\0\x01\x2c\0\x01\0\x04\xc0\0\x02\x01\0",
    );
    // an alias to the root that is evaluated, in a region
    compare(
        &rt,
        rt.alloc(),
        alias(&rt),
        b"\x03www\x01a\0\0\x1c\x04\x01l\x09eu-west-1\x01\0\x01\0",
    );
}

#[test]
fn places_of_faults(rt: HostRuntime) {
    let rows = [
        // nothing, and a name that is cut off
        (b"".as_slice(), 0),
        (b"\x03ww".as_slice(), 3),
        // a name with a capital letter, a type that is none, a policy that is none
        (b"\x01A\0\0\x01".as_slice(), 0),
        (b"\0\0\x07".as_slice(), 1),
        (b"\0\0\x01\x07".as_slice(), 3),
        // an identifier of no bytes, and one with a tab
        (b"\0\0\x01\x05\0".as_slice(), 4),
        (b"\0\0\x01\x05\x01\x09".as_slice(), 4),
        // a location that is no name, and `*` without a body behind it
        (b"\0\0\x01\x06\x01i\0\0\0\x01\x02**".as_slice(), 10),
        (b"\0\0\x01\x06\x01i\0\0\0\x01\x01*".as_slice(), 12),
        // a time to live of 2^31, an address of five octets, a flag of 2
        (b"\0\0\x01\0\0\x80\0\0\0".as_slice(), 5),
        (
            b"\0\0\x01\0\0\0\0\0\x3c\0\x01\0\x05\x0a\0\0\x01\0".as_slice(),
            13,
        ),
        (b"\0\0\x01\0\x01\0\x02".as_slice(), 6),
    ];
    for (octets, place) in rows {
        let read = read_set(rt.alloc(), octets);
        assert!(rt;
            matches!(read, Err(ReadFault::Bad(at)) if at == place),
            "{octets:?}"
        );
    }
}
