//! Snapshots by hand as configurations, and changes of one with which it is that of none.

use r53_state::{Config, SnapshotFault};
use std::alloc::Global;
use std::process::Abort;

/// Version 2: the next zone and check are 2; h1 of an endpoint with threshold 3; Z1, example.com.,
/// with three sets: its name server ns1.r53.invalid., its start of authority, and `a`, 192.0.2.1
/// with h1.
const SECOND: [u8; 214] = *b"\x02\0\0\0\x02\0\0\0\x02\
    \0\x01\0\0\0\x01\x01\x03\0\0\
    \0\x01\0\0\0\x01\x07example\x03com\0\0\0\0\x03\
    \x07example\x03com\0\0\x02\0\0\0\x02\xA3\0\0\x01\0\x11\x03ns1\x03r53\x07invalid\0\0\
    \x07example\x03com\0\0\x06\0\0\0\0\x03\x84\0\x01\0\x43\x03ns1\x03r53\x07invalid\0\
    \x11awsdns-hostmaster\x06amazon\x03com\0\
    \0\0\0\x01\0\0\x1C\x20\0\0\x03\x84\0\x12\x75\0\0\x01\x51\x80\0\
    \x01a\x07example\x03com\0\0\x01\0\0\0\0\0\x3C\0\x01\0\x04\xC0\0\x02\x01\x01\0\0\0\x01";

/// The same in version 1, which doesn't tell whether h1 is disabled.
const FIRST: [u8; 213] = *b"\x01\0\0\0\x02\0\0\0\x02\
    \0\x01\0\0\0\x01\x01\x03\0\
    \0\x01\0\0\0\x01\x07example\x03com\0\0\0\0\x03\
    \x07example\x03com\0\0\x02\0\0\0\x02\xA3\0\0\x01\0\x11\x03ns1\x03r53\x07invalid\0\0\
    \x07example\x03com\0\0\x06\0\0\0\0\x03\x84\0\x01\0\x43\x03ns1\x03r53\x07invalid\0\
    \x11awsdns-hostmaster\x06amazon\x03com\0\
    \0\0\0\x01\0\0\x1C\x20\0\0\x03\x84\0\x12\x75\0\0\x01\x51\x80\0\
    \x01a\x07example\x03com\0\0\x01\0\0\0\0\0\x3C\0\x01\0\x04\xC0\0\x02\x01\x01\0\0\0\x01";

/// The configuration of which octets are a snapshot.
fn read(rt: &impl Abort, alloc: Global, octets: &[u8]) -> Config {
    Config::from_snapshot(alloc, octets)
        .ok()
        .expect(rt, "a configuration")
}

/// Why octets are not read, where they aren't.
fn fault(alloc: Global, octets: &[u8]) -> Option<SnapshotFault> {
    Config::from_snapshot(alloc, octets).err()
}

/// The snapshot of a configuration.
fn written(rt: &impl Abort, alloc: Global, config: &Config) -> Vec<u8> {
    config.snapshot(alloc).ok().expect(rt, "memory")
}

/// The snapshot of a configuration is the second.
fn check_written(rt: &impl Abort, alloc: Global, config: &Config, what: &str) {
    let octets = written(rt, alloc, config);
    assert_eq!(rt; octets.as_slice(), SECOND.as_slice(), "{what}");
    drop(octets);
}

/// A configuration holds what the second does.
fn check_held(rt: &impl Abort, config: &Config) {
    assert_eq!(rt; config.next_zone(), 2, "the next zone");
    assert_eq!(rt; config.zones().count(1), 3, "three sets");
    assert!(rt; config.checks().get(1).is_some(), "h1");
}

#[test]
fn second_version(rt: HostRuntime) {
    let config = read(&rt, rt.alloc(), &SECOND);
    check_held(&rt, &config);
    check_written(&rt, rt.alloc(), &config, "written again");
    drop(config);
}

#[test]
fn first_version(rt: HostRuntime) {
    let config = read(&rt, rt.alloc(), &FIRST);
    check_written(&rt, rt.alloc(), &config, "written as version 2");
    drop(config);
}

/// A configuration of a version has nothing in it.
fn check_empty(rt: &impl Abort, config: &Config, version: &str) {
    assert_eq!(rt; config.zones().len(), 0, "{version}: no zones");
    assert_eq!(rt; config.next_zone(), 1, "{version}: the next zone");
}

/// Octets are the snapshot of a configuration that has nothing in it.
fn check_nothing(rt: &impl Abort, alloc: Global, octets: &[u8], version: &str) {
    let config = read(rt, alloc, octets);
    check_empty(rt, &config, version);
    drop(config);
}

#[test]
fn nothing_in_it(rt: HostRuntime) {
    let rows: [(&[u8], &str); 3] = [
        (b"\x01\0\0\0\x01\0\0\0\x01\0\0\0\0", "version 1"),
        (b"\x02\0\0\0\x01\0\0\0\x01\0\0\0\0", "version 2"),
        // The next collection is 2.
        (
            b"\x03\0\0\0\x01\0\0\0\x01\0\0\0\x02\0\0\0\0\0\0",
            "version 3",
        ),
    ];
    for (octets, version) in rows {
        check_nothing(&rt, rt.alloc(), octets, version);
    }
}

/// Why the second is not read once an octet of it is another.
fn fault_with(alloc: Global, place: usize, octet: u8) -> Option<SnapshotFault> {
    let mut octets = SECOND;
    if place < octets.len() {
        octets[place] = octet;
    }
    fault(alloc, &octets)
}

#[test]
fn unsound(rt: HostRuntime) {
    let rows: [(usize, u8, &str); 7] = [
        (0, 4, "version 4"),
        (4, 0, "the next zone is 0"),
        (24, 2, "the zone has the next number"),
        (14, 2, "the check has the next number"),
        (213, 2, "a set names h2, which isn't there"),
        (56, 5, "the name server's set is of type CNAME"),
        (26, b'f', "the zone is named fxample.com."),
    ];
    for (place, octet, why) in rows {
        let found = fault_with(rt.alloc(), place, octet);
        assert_eq!(rt; found, Some(SnapshotFault::Bad), "{why}");
    }
}

#[test]
fn cut_short(rt: HostRuntime) {
    for len in 0..SECOND.len() {
        let found = fault(rt.alloc(), &SECOND[..len]);
        assert_eq!(rt; found, Some(SnapshotFault::Bad), "{len} octets");
    }
}
