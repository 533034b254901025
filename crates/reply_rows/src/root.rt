//! Sets of the root zone of RFC 1034, 6.1, and queries of 6.2.4 to 6.2.6; the SOA record in answers
//! is that of RFC 2308.

use crate::asking::{packet, question, reply_to, settled_to};
use crate::made::{Set, root};
use rdata::RType;
use std::alloc::Global;
use std::process::Abort;
use std::test::Fail;
use zone_table::Zones;

/// The sets.
pub const ROOT: [Set; 5] = [
    (
        ".",
        RType::Soa,
        &["SRI-NIC.ARPA. HOSTMASTER.SRI-NIC.ARPA. 870611 1800 300 604800 86400"],
    ),
    (
        ".",
        RType::Ns,
        &["A.ISI.EDU.", "C.ISI.EDU.", "SRI-NIC.ARPA."],
    ),
    ("MIL", RType::Ns, &["SRI-NIC.ARPA.", "A.ISI.EDU."]),
    ("SRI-NIC.ARPA", RType::A, &["26.0.0.73", "10.0.0.51"]),
    ("A.ISI.EDU", RType::A, &["26.3.0.103"]),
];

/// Compares the reply to a question, as it is made for one asker and as it is settled for all: its id, flags and counts,
/// and behind the question the records.
fn compare(
    rt: &impl Abort,
    alloc: Global,
    zones: &Zones,
    asked: (&str, u8),
    head: &[u8; 12],
    records: &[u8],
) -> Result<(), Fail> {
    let question = question(rt, alloc, asked.0, asked.1, 1)?;
    let mut wanted = Vec::new(alloc);
    wanted.extend_from_slice(head)?;
    wanted.extend_from_slice(&question)?;
    wanted.extend_from_slice(records)?;
    let packet = packet(alloc, &question, b"")?;
    let made = reply_to(rt, alloc, zones, &packet)?;
    assert_eq!(rt;
        made.as_slice(),
        wanted.as_slice(),
        "made for one asker: {}",
        asked.0
    );
    let settled = settled_to(rt, alloc, zones, &packet)?;
    assert_eq!(rt;
        settled.as_slice(),
        wanted.as_slice(),
        "settled for all: {}",
        asked.0
    );
    Ok(())
}

#[test]
fn no_servers(rt: HostRuntime) -> Result<(), Fail> {
    let alloc = rt.alloc();
    let zones = root(&rt, alloc, &ROOT);
    let head = b"\x12\x34\x85\0\0\x01\0\0\0\x01\0\0";
    // . 86400 SOA sri-nic.arpa. hostmaster.sri-nic.arpa. 870611 1800 300 604800 86400
    let records = b"\0\0\x06\0\x01\0\x01\x51\x80\0\x23\
        \xc0\x0c\x0ahostmaster\xc0\x0c\0\x0d\x48\xd3\0\0\x07\x08\0\0\x01\x2c\0\x09\x3a\x80\0\x01\x51\x80";
    compare(&rt, alloc, &zones, ("SRI-NIC.ARPA", 2), head, records)
}

#[test]
fn no_name(rt: HostRuntime) -> Result<(), Fail> {
    let alloc = rt.alloc();
    let zones = root(&rt, alloc, &ROOT);
    let head = b"\x12\x34\x85\x03\0\x01\0\0\0\x01\0\0";
    let records = b"\0\0\x06\0\x01\0\x01\x51\x80\0\x33\
        \x07sri-nic\xc0\x14\x0ahostmaster\x07sri-nic\xc0\x14\
        \0\x0d\x48\xd3\0\0\x07\x08\0\0\x01\x2c\0\x09\x3a\x80\0\x01\x51\x80";
    compare(&rt, alloc, &zones, ("SIR-NIC.ARPA", 1), head, records)
}

#[test]
fn a_referral(rt: HostRuntime) -> Result<(), Fail> {
    let alloc = rt.alloc();
    let zones = root(&rt, alloc, &ROOT);
    let head = b"\x12\x34\x81\0\0\x01\0\0\0\x02\0\x03";
    // mil. NS sri-nic.arpa. and a.isi.edu.; then the addresses that the zone has of these
    let records = b"\xc0\x10\0\x02\0\x01\0\x01\x51\x80\0\x0e\x07sri-nic\x04arpa\0\
        \xc0\x10\0\x02\0\x01\0\x01\x51\x80\0\x0b\x01a\x03isi\x03edu\0\
        \x07sri-nic\x04arpa\0\0\x01\0\x01\0\x01\x51\x80\0\x04\x1a\0\0\x49\
        \x07sri-nic\x04arpa\0\0\x01\0\x01\0\x01\x51\x80\0\x04\x0a\0\0\x33\
        \x01a\x03isi\x03edu\0\0\x01\0\x01\0\x01\x51\x80\0\x04\x1a\x03\0\x67";
    compare(&rt, alloc, &zones, ("BRL.MIL", 1), head, records)
}
