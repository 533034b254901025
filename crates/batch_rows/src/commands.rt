//! Octets of commands, written and read.

use crate::sets::{batch, name, upsert};
use check_model::Check;
use command_codec::{CheckCommand, CidrCommand, Command, ReadFault, has_spelling, read, write};
use std::alloc::Global;
use std::process::Abort;

/// Compares the octets of a command.
fn compare(rt: &impl Abort, alloc: Global, command: Command, octets: &[u8]) {
    assert!(rt; has_spelling(&command), "a spelling: {octets:?}");
    let written = write(alloc, &command).ok().expect(rt, "memory");
    assert_eq!(rt; written.as_slice(), octets);
    assert!(rt; read(alloc, octets).is_ok(), "read again: {octets:?}");
    compare_cut(rt, alloc, octets);
}

/// Reads the octets of a command without the last one.
fn compare_cut(rt: &impl Abort, alloc: Global, octets: &[u8]) {
    let (_, first) = octets.split_last().expect(rt, "octets");
    let cut = read(alloc, first);
    assert!(rt;
        matches!(cut, Err(ReadFault::Bad(at)) if at == first.len()),
        "cut off: {octets:?}"
    );
}

/// A zone with its four servers.
fn create(rt: &impl Abort) -> Command {
    Command::CreateZone {
        name: name(rt, b"a"),
        servers: [
            name(rt, b"b"),
            name(rt, b"c"),
            name(rt, b"d"),
            name(rt, b"e.f"),
        ],
    }
}

/// So many changes of one address.
fn changes(rt: &impl Abort, alloc: Global, zone: u32, count: usize) -> Command {
    let mut list = Vec::new(alloc);
    for _ in 0..count {
        assert!(rt; list.push(upsert(rt, alloc)).is_ok(), "memory");
    }
    Command::Change(batch(zone, list))
}

#[test]
fn octets_of_commands(rt: HostRuntime) {
    compare(
        &rt,
        rt.alloc(),
        create(&rt),
        b"\x02\x01\x01a\0\x01b\0\x01c\0\x01d\0\x01e\x01f\0",
    );
    compare(
        &rt,
        rt.alloc(),
        Command::DeleteZone(7),
        b"\x02\x02\0\0\0\x07",
    );
    compare(
        &rt,
        rt.alloc(),
        changes(&rt, rt.alloc(), 258, 1),
        b"\x02\x03\0\0\x01\x02\0\x01\x03\0\0\0\x09\x03www\x01a\0\0\x01\0\0\0\0\x01\x2c\0\x01\0\x04\xc0\0\x02\x01\0",
    );
}

/// A new check of an endpoint.
fn create_check() -> Command {
    let check = Check::Endpoint {
        threshold: 3,
        inverted: false,
        disabled: false,
    };
    Command::Health(CheckCommand::Create(check))
}

#[test]
fn octets_of_checks_and_collections(rt: HostRuntime) {
    compare(&rt, rt.alloc(), create_check(), b"\x02\x04\x01\x03\0\0");
    compare(
        &rt,
        rt.alloc(),
        Command::Cidr(CidrCommand::Delete(7)),
        b"\x02\x09\0\0\0\x07",
    );
}

#[test]
fn first_version_of_checks(rt: HostRuntime) {
    let command = read(rt.alloc(), b"\x01\x04\x01\x03\0");
    assert!(rt; matches!(command, Ok(Command::Health(_))), "version 1");
    let command = read(rt.alloc(), b"\x01\x09\0\0\0\x07");
    assert!(rt;
        matches!(command, Err(ReadFault::Bad(1))),
        "a collection in version 1"
    );
}

#[test]
fn first_version_read(rt: HostRuntime) {
    let command = read(rt.alloc(), b"\x01\x02\0\0\0\x07");
    assert!(rt; matches!(command, Ok(Command::DeleteZone(7))), "version 1");
    let command = read(rt.alloc(), b"\x03\x02\0\0\0\x07");
    assert!(rt; matches!(command, Err(ReadFault::Bad(0))), "version 3");
}

#[test]
fn changes_above_a_thousand(rt: HostRuntime) {
    let command = changes(&rt, rt.alloc(), 1, 1200);
    assert!(rt; has_spelling(&command), "a spelling");
    let written = write(rt.alloc(), &command).ok().expect(&rt, "memory");
    // 8 octets, and 29 a change: 4 for the characters, 24 for the set
    assert_eq!(rt; written.len(), 8 + 1200 * 29);
    let Ok(Command::Change(batch)) = read(rt.alloc(), written.as_slice()) else {
        panic!(rt; "a change of a zone");
    };
    assert_eq!(rt; batch.changes.len(), 1200, "all changes");
}
