//! Texts of prefixes, and texts that are none.

use address_text::IpAddress;
use ip_table::IpPrefix;
use prefix_text::read_prefix;

#[test]
fn prefixes(rt: HostRuntime) {
    assert_eq!(rt;
        read_prefix(b"198.51.100.0/24"),
        IpPrefix::new(IpAddress::V4([198, 51, 100, 0]), 24),
        "IPv4"
    );
    let zeros = [0; 16];
    assert_eq!(rt;
        read_prefix(b"::/0"),
        IpPrefix::new(IpAddress::V6(zeros), 0),
        "IPv6"
    );
    assert!(rt; read_prefix(b"2001:db8::/32").is_some(), "two groups");
}

#[test]
fn no_prefixes(rt: HostRuntime) {
    let rows = [
        (b"198.51.100.0/".as_slice(), "an empty length"),
        (b"198.51.100.0/24/24", "two lengths"),
        (b"198.51.100/24", "three octets"),
        (b" 198.51.100.0/24", "a blank in front"),
        (b"2001:db8::/129", "longer than an IPv6 address"),
        (b"/24", "no address"),
    ];
    for (text, row) in rows {
        assert!(rt; read_prefix(text).is_none(), "{row}");
    }
}
