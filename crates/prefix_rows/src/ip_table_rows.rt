//! Prefixes, inserts and look-ups, and a full table.

use address_text::IpAddress;
use ip_table::{InsertFault, IpPrefix, IpTable};
use std::test::Fail;

#[test]
fn makes_prefixes(rt: HostRuntime) -> Result<(), Fail> {
    let address = IpAddress::V4([198, 51, 100, 0]);
    for (length, want) in [(22, true), (21, false), (33, false)] {
        assert_eq!(rt;
            IpPrefix::new(address, length).is_some(),
            want,
            "{length} bits"
        );
    }
    let prefix = IpPrefix::new(address, 24).expect(&rt, "24 bits");
    assert_eq!(rt;
        (prefix.address(), prefix.length()),
        (address, 24),
        "its parts"
    );
    Ok(())
}

/// A row of IPv4.
fn insert_v4(table: &mut IpTable<u32>, octets: [u8; 4], length: u8, value: u32) -> bool {
    match IpPrefix::new(IpAddress::V4(octets), length) {
        None => false,
        Some(prefix) => table.insert(prefix, value).is_ok(),
    }
}

#[test]
fn locates_addresses(rt: HostRuntime) -> Result<(), Fail> {
    let mut table = IpTable::new(rt.alloc());
    assert_eq!(rt;
        table.locate(IpAddress::V4([198, 51, 100, 7])),
        (None, 0),
        "no rows"
    );

    // 198.51.0.0/16 and 198.51.200.0/24, the shorter one last
    assert!(rt; insert_v4(&mut table, [198, 51, 200, 0], 24, 2));
    assert!(rt; insert_v4(&mut table, [198, 51, 0, 0], 16, 1));
    let rows = [
        ([198, 51, 100, 7], Some(&1), 17),
        ([198, 51, 200, 7], Some(&2), 24),
        ([203, 0, 113, 1], None, 5),
    ];
    for (octets, value, scope) in rows {
        assert_eq!(rt;
            table.locate(IpAddress::V4(octets)),
            (value, scope),
            "{octets:?}"
        );
    }

    // the other family
    assert_eq!(rt; table.locate(IpAddress::V6([0; 16])), (None, 0));
    Ok(())
}

#[test]
fn is_full_at_100_000_rows(rt: HostRuntime) -> Result<(), Fail> {
    let mut table = IpTable::new(rt.alloc());
    for n in 0..100_000u32 {
        let Some(prefix) = IpPrefix::new(IpAddress::V4((n * 256).to_be_bytes()), 24) else {
            continue;
        };
        assert_eq!(rt; table.insert(prefix, n), Ok(()), "row {n}");
    }
    if let Some(prefix) = IpPrefix::new(IpAddress::V4([192, 0, 2, 0]), 24) {
        assert_eq!(rt; table.insert(prefix, 7), Err(InsertFault::Full(7)));
    }
    if let Some(prefix) = IpPrefix::new(IpAddress::V4([0, 0, 1, 0]), 24) {
        assert_eq!(rt;
            table.insert(prefix, 8),
            Err(InsertFault::Duplicate(8)),
            "one that is there"
        );
    }
    assert_eq!(rt; table.locate(IpAddress::V4([0, 0, 1, 5])), (Some(&1), 24));
    Ok(())
}
