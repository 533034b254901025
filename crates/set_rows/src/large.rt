//! A set that takes memory more than once where it is copied, written and read.

use crate::sets::{name, set};
use rdata::{RData, RType};
use record_set::{Body, RecordSet, Routing, Values, same};
use set_octets::{has_spelling, write_set};
use set_reading::read_set;
use std::alloc::Global;
use std::process::Abort;

/// 600 different addresses of 16 octets.
fn addresses(rt: &impl Abort, alloc: Global) -> Values {
    let mut list = Vec::new(alloc);
    for n in 0..600u16 {
        let (high, low) = ((n / 256) as u8, (n % 256) as u8);
        let octets = [
            0x20, 0x01, 0x0d, 0xb8, 0, 0, 0, 0, 0, 0, 0, 0, 0, 0, high, low,
        ];
        let value = RData::from_wire(alloc, RType::Aaaa, &octets).expect(rt, "an address");
        assert!(rt; list.push(value).is_ok(), "memory");
    }
    Values::from_vec(list)
}

/// www.example.com AAAA, simple, with 600 values, more than a zone lets a set have: 10,828 octets.
fn many(rt: &impl Abort, alloc: Global) -> RecordSet {
    let body = Body::Values {
        ttl: 60,
        values: addresses(rt, alloc),
    };
    set(
        name(rt, b"www.example.com"),
        RType::Aaaa,
        Routing::Simple,
        body,
    )
}

/// The octets of a set that has a spelling.
fn octets_of(rt: &impl Abort, alloc: Global, set: &RecordSet) -> Vec<u8> {
    let mut into = Vec::new(alloc);
    assert!(rt; has_spelling(set), "a spelling");
    assert!(rt; write_set(set, &mut into).is_ok(), "memory");
    into
}

#[test]
fn six_hundred_values_copied(rt: HostRuntime) {
    let set = many(&rt, rt.alloc());
    let copy = set.copy(rt.alloc()).expect(&rt, "a copy");
    assert!(&rt; same(&copy, &set), "the copy");
}

#[test]
fn six_hundred_values_written_and_read(rt: HostRuntime) {
    let set = many(&rt, rt.alloc());
    let octets = octets_of(&rt, rt.alloc(), &set);
    assert_eq!(&rt; octets.len(), 10_828, "how many octets");
    let (again, len) = read_set(rt.alloc(), &octets).expect(&rt, "a set");
    assert_eq!(&rt; len, 10_828, "all of them");
    assert!(&rt; same(&again, &set), "the set");
}
