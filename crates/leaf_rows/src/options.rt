//! Options of the client subnet, read and written.

use ecs_option::{ClientSubnet, Malformed, read};
use std::test::Fail;

/// A subnet with these octets of its address.
fn subnet(family: u16, source: u8, front: [u8; 4]) -> ClientSubnet {
    ClientSubnet {
        family,
        source,
        address: [
            front[0], front[1], front[2], front[3], 0, 0, 0, 0, 0, 0, 0, 0, 0, 0, 0, 0,
        ],
    }
}

#[test]
fn reads_options(rt: HostRuntime) -> Result<(), Fail> {
    let rows = [
        // 198.51.101.0/23: a bit behind the source length
        (
            b"\x00\x01\x17\x00\xc6\x33\x65".as_slice(),
            Err(Malformed(4)),
        ),
        (
            b"\x00\x01\x18\x00\xc6\x33\x64".as_slice(),
            Ok(subnet(1, 24, [0xc6, 0x33, 0x64, 0])),
        ),
        // 2001:db8::/32
        (
            b"\x00\x02\x20\x00\x20\x01\x0d\xb8".as_slice(),
            Ok(subnet(2, 32, [0x20, 0x01, 0x0d, 0xb8])),
        ),
    ];
    for (body, want) in rows {
        assert_eq!(rt; read(body), want, "{body:?}");
    }
    Ok(())
}

#[test]
fn writes_options(rt: HostRuntime) -> Result<(), Fail> {
    let rows = [
        (
            b"\x00\x01\x00\x00".as_slice(),
            0,
            b"\x00\x08\x00\x04\x00\x01\x00\x00".as_slice(),
        ),
        // scope 17
        (
            b"\x00\x01\x18\x00\xc6\x33\x64".as_slice(),
            17,
            b"\x00\x08\x00\x07\x00\x01\x18\x11\xc6\x33\x64".as_slice(),
        ),
    ];
    for (body, scope, want) in rows {
        let Ok(subnet) = read(body) else {
            assert!(rt; false, "{body:?}");
            continue;
        };
        let mut into = [0xff; 24];
        let length = subnet.write(scope, &mut into);
        assert!(rt; length <= 24);
        assert_eq!(rt; &into[..length], want, "{body:?}");
    }
    Ok(())
}
