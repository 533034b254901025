//! Which replies are settled, of sets of all policies. Each of these is the same whoever asks; of the others some are,
//! too.

use crate::asking::{packet, question, settled_to};
use crate::made::{name, root_of, values};
use rdata::RType;
use record_set::{Body, RecordSet};
use routing::{Ident, Place, Region, Role, Routing};
use std::alloc::Global;
use std::process::Abort;
use std::test::Fail;
use zone_table::{Sets, Zones};

/// How a set is chosen.
#[derive(Clone, Copy)]
enum Kind {
    Simple,
    Primary,
    Secondary,
    Anywhere,
    Near,
    Block,
    Weighted,
    Many,
    /// An alias of the simple set of this name.
    Alias,
}

/// A set: its owner, its type, how it is chosen, and its value or its target.
type Set = (&'static str, RType, Kind, &'static str);

/// The sets.
const SETS: [Set; 17] = [
    (
        ".",
        RType::Soa,
        Kind::Simple,
        "a. b. 1 1800 300 604800 86400",
    ),
    (".", RType::Ns, Kind::Simple, "a."),
    ("alias", RType::A, Kind::Alias, "one"),
    ("*.alias", RType::A, Kind::Alias, "one"),
    ("block", RType::A, Kind::Block, "192.0.2.9"),
    ("cut", RType::Ns, Kind::Simple, "ns.cut."),
    ("ns.cut", RType::A, Kind::Simple, "192.0.2.1"),
    ("many", RType::A, Kind::Many, "192.0.2.2"),
    ("name", RType::Cname, Kind::Simple, "one."),
    ("*.name", RType::Cname, Kind::Simple, "one."),
    ("near", RType::A, Kind::Near, "192.0.2.10"),
    ("one", RType::A, Kind::Simple, "192.0.2.3"),
    ("pair", RType::A, Kind::Primary, "192.0.2.4"),
    ("pair", RType::A, Kind::Secondary, "192.0.2.5"),
    ("place", RType::A, Kind::Anywhere, "192.0.2.6"),
    ("weight", RType::A, Kind::Weighted, "192.0.2.7"),
    ("*.wild", RType::A, Kind::Simple, "192.0.2.8"),
];

/// A question for a name and a type, and whether its reply is settled: without an OPT record, where that tells a subnet of
/// the client, and where it tells one of no bits.
type Row = (&'static str, u8, bool, bool, bool);

/// The questions.
const ROWS: [Row; 29] = [
    // One set, also at the apex, a wildcard's, and one that a failover chooses.
    ("one", 1, true, true, true),
    ("name", 5, true, true, true),
    (".", 6, true, true, true),
    (".", 2, true, true, true),
    ("any.wild", 1, true, true, true),
    ("any.name", 5, true, true, true),
    ("pair", 1, true, true, true),
    // One by places, latencies and address blocks.
    ("place", 1, false, true, false),
    ("near", 1, false, true, false),
    ("block", 1, false, true, false),
    // No data: of the type, at an empty non-terminal, and by a wildcard.
    ("one", 28, true, true, true),
    (".", 1, true, true, true),
    ("alias", 28, true, true, true),
    ("weight", 28, true, true, true),
    ("wild", 1, true, true, true),
    ("any.wild", 28, true, true, true),
    // No such name, also below one that has sets.
    ("none", 1, true, true, true),
    ("below.one", 1, true, true, true),
    // Below a zone cut, and at it.
    ("host.cut", 1, true, true, true),
    ("ns.cut", 1, true, true, true),
    ("cut", 1, true, true, true),
    ("cut", 2, true, true, true),
    // Aliases and CNAME records, a wildcard's too, what words choose, and what is refused.
    ("alias", 1, false, false, false),
    ("any.alias", 1, false, false, false),
    ("name", 1, false, false, false),
    ("any.name", 1, false, false, false),
    ("weight", 1, false, false, false),
    ("many", 1, false, false, false),
    ("one", 255, false, false, false),
];

/// Behind a question the OPT record of a client subnet: 203.0.113.0/24.
const TOLD: &[u8; 22] = b"\0\0\x29\x10\0\0\0\0\0\0\x0b\0\x08\0\x07\0\x01\x18\0\xcb\0\x71";

/// That of 0.0.0.0/0.
const UNTOLD: &[u8; 19] = b"\0\0\x29\x10\0\0\0\0\0\0\x08\0\x08\0\x04\0\x01\0\0";

/// The policy of a set, by this region or location where it has one.
fn routing(kind: Kind, ident: Ident, region: Region, location: Ident) -> Routing {
    match kind {
        Kind::Primary => Routing::Failover(ident, Role::Primary),
        Kind::Secondary => Routing::Failover(ident, Role::Secondary),
        Kind::Anywhere => Routing::Geolocation(ident, Place::Anywhere),
        Kind::Near => Routing::Latency(ident, region),
        Kind::Block => Routing::Cidr(ident, 1, location),
        Kind::Weighted => Routing::Weighted(ident, 1),
        Kind::Many => Routing::Multivalue(ident),
        _ => Routing::Simple,
    }
}

/// The set of a row.
fn set(rt: &impl Abort, alloc: Global, row: &Set) -> RecordSet {
    let (owner, rtype, kind, text) = *row;
    let ident = Ident::new(text.as_bytes()).expect(rt, "an identifier");
    let region = Region::new(b"a").expect(rt, "a region");
    let location = Ident::new(b"*").expect(rt, "a location");
    let body = match kind {
        Kind::Alias => Body::Alias {
            target: name(rt, text),
            evaluate: false,
        },
        _ => Body::Values {
            ttl: 300,
            values: values(rt, alloc, rtype, &[text]),
        },
    };
    RecordSet {
        name: name(rt, owner),
        rtype,
        routing: routing(kind, ident, region, location),
        body,
        check: None,
    }
}

/// The sets of these rows.
fn sets(rt: &impl Abort, alloc: Global, rows: &[Set]) -> Sets {
    let mut list = Vec::new(alloc);
    for row in rows {
        assert!(rt; list.push(set(rt, alloc, row)).is_ok(), "memory");
    }
    Sets::from_vec(list)
}

/// Whether the reply to a question is settled, with this behind it.
fn is_settled(
    rt: &impl Abort,
    alloc: Global,
    zones: &Zones,
    question: &[u8],
    opt: &[u8],
) -> Result<bool, Fail> {
    let packet = packet(alloc, question, opt)?;
    let settled = settled_to(rt, alloc, zones, &packet)?;
    Ok(!settled.is_empty())
}

/// Compares whether the reply to a question of class IN is settled, with this behind it.
fn compare(
    rt: &impl Abort,
    alloc: Global,
    zones: &Zones,
    asked: (&str, u8),
    opt: &[u8],
    wanted: bool,
) -> Result<(), Fail> {
    let question = question(rt, alloc, asked.0, asked.1, 1)?;
    let found = is_settled(rt, alloc, zones, &question, opt)?;
    assert_eq!(rt;
        found,
        wanted,
        "{} {}, {} octets behind it",
        asked.0,
        asked.1,
        opt.len()
    );
    Ok(())
}

/// Compares what is settled with what a row says.
fn compare_row(rt: &impl Abort, alloc: Global, zones: &Zones, row: &Row) -> Result<(), Fail> {
    let (owner, qtype, plain, told, untold) = *row;
    compare(rt, alloc, zones, (owner, qtype), b"", plain)?;
    compare(rt, alloc, zones, (owner, qtype), TOLD, told)?;
    compare(rt, alloc, zones, (owner, qtype), UNTOLD, untold)
}

/// Compares all rows.
fn compare_all(rt: &impl Abort, alloc: Global, zones: &Zones, rows: &[Row]) -> Result<(), Fail> {
    for row in rows {
        compare_row(rt, alloc, zones, row)?;
    }
    Ok(())
}

#[test]
fn some_are_settled(rt: HostRuntime) -> Result<(), Fail> {
    let alloc = rt.alloc();
    let zones = root_of(&rt, alloc, sets(&rt, alloc, &SETS));
    compare_all(&rt, alloc, &zones, &ROWS)
}

#[test]
fn another_class_is_not(rt: HostRuntime) -> Result<(), Fail> {
    let alloc = rt.alloc();
    let zones = root_of(&rt, alloc, sets(&rt, alloc, &SETS));
    let question = question(&rt, alloc, "one", 1, 3)?;
    let found = is_settled(&rt, alloc, &zones, &question, b"")?;
    assert!(&rt; !found, "one of class CH");
    Ok(())
}
