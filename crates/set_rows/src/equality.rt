//! Sets that are equal, and sets that aren't.

use crate::sets::{ident, lasting, name, set, values};
use rdata::RType;
use record_set::{Body, Continent, Place, RecordSet, Routing, same};
use std::alloc::Global;
use std::process::Abort;

const WWW: &[u8] = b"www.example.com";

const ONE: &[u8] = b"192.0.2.1";

const TWO: &[u8] = b"192.0.2.2";

/// Compares two sets, both ways.
fn compare(rt: &impl Abort, x: &RecordSet, y: &RecordSet, equal: bool, row: &str) {
    assert_eq!(rt; same(x, y), equal, "{row}");
    assert_eq!(rt; same(y, x), equal, "{row}, the other way round");
}

/// A simple set of addresses.
fn simple(rt: &impl Abort, owner: &[u8], body: Body) -> RecordSet {
    set(name(rt, owner), RType::A, Routing::Simple, body)
}

/// Compares two sets with values of these texts.
fn compare_values(
    rt: &impl Abort,
    alloc: Global,
    texts: &[&[u8]],
    others: &[&[u8]],
    equal: bool,
    row: &str,
) {
    let x = simple(rt, WWW, values(rt, alloc, RType::A, texts));
    let y = simple(rt, WWW, values(rt, alloc, RType::A, others));
    compare(rt, &x, &y, equal, row);
}

/// Compares two sets with these policies.
fn compare_policies(
    rt: &impl Abort,
    alloc: Global,
    routing: &Routing,
    other: &Routing,
    equal: bool,
    row: &str,
) {
    let body = values(rt, alloc, RType::A, &[ONE]);
    let x = set(name(rt, WWW), RType::A, *routing, body);
    let body = values(rt, alloc, RType::A, &[ONE]);
    let y = set(name(rt, WWW), RType::A, *other, body);
    compare(rt, &x, &y, equal, row);
}

/// Rows of values.
fn compare_rows(rt: &impl Abort, alloc: Global) {
    compare_values(rt, alloc, &[ONE, TWO], &[ONE, TWO], true, "the same");
    compare_values(
        rt,
        alloc,
        &[ONE, TWO],
        &[TWO, ONE],
        true,
        "in another order",
    );
    compare_values(rt, alloc, &[ONE, TWO], &[ONE], false, "one value fewer");
    compare_values(
        rt,
        alloc,
        &[ONE, ONE, TWO],
        &[ONE, TWO, TWO],
        false,
        "others twice",
    );
}

/// Rows of weights.
fn compare_weights(rt: &impl Abort, alloc: Global) {
    let a = ident(rt, b"a");
    let one = Routing::Weighted(a, 1);
    let two = Routing::Weighted(a, 2);
    compare_policies(rt, alloc, &one, &one, true, "the same weight");
    compare_policies(rt, alloc, &one, &two, false, "another weight");
    compare_policies(rt, alloc, &one, &Routing::Simple, false, "another policy");
}

/// Rows of places.
fn compare_places(rt: &impl Abort, alloc: Global) {
    let a = ident(rt, b"a");
    let us = Routing::Geolocation(a, Place::Country(*b"US"));
    let anywhere = Routing::Geolocation(a, Place::Anywhere);
    let europe = Routing::Geolocation(a, Place::Continent(Continent::Eu));
    let asia = Routing::Geolocation(a, Place::Continent(Continent::As));
    compare_policies(rt, alloc, &us, &us, true, "the same country");
    compare_policies(rt, alloc, &us, &anywhere, false, "another place");
    compare_policies(rt, alloc, &europe, &asia, false, "another continent");
}

/// Rows of what else a set has: its time to live, its check and its name.
fn compare_others(rt: &impl Abort, alloc: Global) {
    let x = simple(rt, WWW, values(rt, alloc, RType::A, &[ONE, TWO]));
    let y = simple(rt, WWW, lasting(rt, alloc, 60, RType::A, &[ONE, TWO]));
    compare(rt, &x, &y, false, "another time to live");
    let x = simple(rt, WWW, values(rt, alloc, RType::A, &[ONE]));
    let y = RecordSet {
        check: Some(1),
        ..simple(rt, WWW, values(rt, alloc, RType::A, &[ONE]))
    };
    compare(rt, &x, &y, false, "a check");
    let y = simple(rt, b"w.example.com", values(rt, alloc, RType::A, &[ONE]));
    compare(rt, &x, &y, false, "another name");
}

#[test]
fn equal_sets(rt: HostRuntime) {
    compare_rows(&rt, rt.alloc());
    compare_weights(&rt, rt.alloc());
    compare_places(&rt, rt.alloc());
    compare_others(&rt, rt.alloc());
}
