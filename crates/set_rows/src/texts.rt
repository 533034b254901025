//! Texts of policies.

use record_set::{Ident, Region, Sub};
use std::process::Abort;

/// Compares whether a text is an identifier.
fn compare_ident(rt: &impl Abort, text: &[u8], is_ident: bool) {
    let read = Ident::new(text);
    assert_eq!(rt; read.is_some(), is_ident, "{text:?}");
    assert!(rt; read.is_none_or(|ident| ident.bytes() == text), "{text:?}");
}

#[test]
fn identifiers(rt: HostRuntime) {
    let long = [b'~'; 129];
    let rows: [(&[u8], bool); 8] = [
        (b"a", true),
        (b" A~", true),
        (&long[..128], true),
        (&long, false),
        (b"", false),
        (b"a\t", false),
        (b"\x7f", false),
        (b"\xc3\xa9", false),
    ];
    for (text, is_ident) in rows {
        compare_ident(&rt, text, is_ident);
    }
}

/// Compares whether a text is the name of a region.
fn compare_region(rt: &impl Abort, text: &[u8], is_region: bool) {
    let region = Region::new(text);
    assert_eq!(rt; region.is_some(), is_region, "{text:?}");
    assert!(rt;
        region.is_none_or(|region| region.bytes() == text),
        "{text:?}"
    );
}

/// Compares whether a text is the code of a subdivision.
fn compare_sub(rt: &impl Abort, text: &[u8], is_sub: bool) {
    let sub = Sub::new(text);
    assert_eq!(rt; sub.is_some(), is_sub, "{text:?}");
    assert!(rt; sub.is_none_or(|sub| sub.bytes() == text), "{text:?}");
}

#[test]
fn regions_and_subdivisions(rt: HostRuntime) {
    let long = [b'a'; 33];
    let rows: [(&[u8], bool, bool); 8] = [
        (b"us-east-1", true, false),
        (b"TX", false, true),
        (b"1", true, true),
        (&long[..32], true, false),
        (&long, false, false),
        (b"ABCD", false, false),
        (b"", false, false),
        (b"us_east", false, false),
    ];
    for (text, is_region, is_sub) in rows {
        compare_region(&rt, text, is_region);
        compare_sub(&rt, text, is_sub);
    }
}
