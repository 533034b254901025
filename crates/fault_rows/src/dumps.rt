//! The lines of a dump, byte by byte.

use address_text::IpAddress;
use check_model::Check;
use cidr_blocks::{Blocks, CidrLocation, Collection, Ident, Locations, is_collection};
use dns_name::Name;
use dump_writing::{
    MOST_OF_CHECK, MOST_OF_COLLECTION, write_check_line, write_collection_line, write_zone_line,
};
use ip_table::IpPrefix;
use std::alloc::Global;
use std::process::Abort;
use std::test::Fail;

/// The location `office` with 198.51.100.0/24 and 2001:db8::/32.
fn office(rt: &impl Abort, alloc: Global) -> Result<CidrLocation, Fail> {
    let short = IpPrefix::new(IpAddress::V4([198, 51, 100, 0]), 24).expect(rt, "a prefix");
    let mut octets = [0; 16];
    octets[0] = 0x20;
    octets[1] = 0x01;
    octets[2] = 0x0d;
    octets[3] = 0xb8;
    let long = IpPrefix::new(IpAddress::V6(octets), 32).expect(rt, "a prefix");
    let mut blocks = Vec::new(alloc);
    blocks.push(short)?;
    blocks.push(long)?;
    Ok(CidrLocation {
        name: Ident::new(b"office").expect(rt, "a name"),
        blocks: Blocks::from_vec(blocks),
    })
}

#[test]
fn line_of_a_collection(rt: HostRuntime) -> Result<(), Fail> {
    let alloc = rt.alloc();
    let mut locations = Vec::new(alloc);
    locations.push(office(&rt, alloc)?)?;
    let collection = Collection {
        name: Ident::new(b"sites").expect(&rt, "a name"),
        locations: Locations::from_vec(locations),
    };
    assert!(rt; is_collection(alloc, &collection)?, "a collection");
    let mut line = Vec::with_capacity(alloc, MOST_OF_COLLECTION)?;
    write_collection_line(1, &collection, &mut line);
    let wanted =
        r#"{"CidrCollection":{"Id":"c1","Locations":[{"CidrList":["198.51.100.0/24","2001:db8::/32"],"LocationName":"office"}],"Name":"sites"}}"#;
    assert!(rt;
        line.as_slice().strip_suffix(b"\n") == Some(wanted.as_bytes()),
        "the line"
    );
    Ok(())
}

#[test]
fn lines_of_a_check_and_a_zone(rt: HostRuntime) -> Result<(), Fail> {
    let alloc = rt.alloc();
    let check = Check::Endpoint {
        threshold: 3,
        inverted: false,
        disabled: false,
    };
    let mut line = Vec::with_capacity(alloc, MOST_OF_CHECK)?;
    write_check_line(1, &check, &mut line);
    let wanted =
        r#"{"HealthCheck":{"Disabled":false,"FailureThreshold":3,"Id":"h1","Inverted":false,"Type":"ENDPOINT"}}"#;
    assert!(rt;
        line.as_slice().strip_suffix(b"\n") == Some(wanted.as_bytes()),
        "the line"
    );
    let mut line = Vec::with_capacity(alloc, MOST_OF_CHECK)?;
    write_zone_line(2, &Name::root(), &mut line);
    let wanted = r#"{"HostedZone":{"Id":"Z2","Name":"."}}"#;
    assert!(rt;
        line.as_slice().strip_suffix(b"\n") == Some(wanted.as_bytes()),
        "the line"
    );
    Ok(())
}
