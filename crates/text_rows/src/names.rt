//! Rows of names.

use dns_name::{Name, NameFault};
use std::process::Abort;

/// The name of a text, which is one.
fn name(rt: &impl Abort, text: &[u8]) -> Name {
    let read = Name::from_text(text);
    assert!(rt; read.is_ok(), "a name: {text:?}");
    read.unwrap_or(Name::root())
}

/// Whether a name's text is this one.
fn is_written(name: &Name, text: &[u8]) -> bool {
    let mut into = [0; 1024];
    let n = name.write_text(&mut into);
    &into[..n] == text
}

/// Whether a name's octets on the wire are these.
fn is_on_the_wire(name: &Name, octets: &[u8]) -> bool {
    let mut into = [0; 255];
    let n = name.write_wire(&mut into);
    &into[..n] == octets
}

/// Tries to read a text that is no name.
fn has_no_name(rt: &impl Abort, text: &[u8], fault: NameFault) {
    assert_eq!(rt; Name::from_text(text).err(), Some(fault), "{text:?}");
}

#[test]
fn texts_without_a_name(rt: HostRuntime) {
    let rows: [(&[u8], NameFault); 10] = [
        (b"a..b", NameFault::EmptyLabel(2)),
        (b"", NameFault::EmptyLabel(0)),
        (b".a", NameFault::EmptyLabel(0)),
        (b"..", NameFault::EmptyLabel(0)),
        (b"a\\9", NameFault::BadEscape(1)),
        (b"a\\.b", NameFault::BadEscape(1)),
        (b"\\400", NameFault::BadEscape(0)),
        (b"\\12", NameFault::BadEscape(0)),
        (b"a b", NameFault::BadByte(1)),
        (b"a\x7f", NameFault::BadByte(1)),
    ];
    for (text, fault) in rows {
        has_no_name(&rt, text, fault);
    }
    has_no_name(&rt, &[b'a'; 64], NameFault::LabelTooLong(63));
}

/// Reads a text and octets, and compares the name with the text that is written and with the
/// octets.
fn compare(rt: &impl Abort, text: &[u8], written: &[u8], octets: &[u8]) {
    let read = name(rt, text);
    assert!(rt; is_written(&read, written), "written: {text:?}");
    assert!(rt; is_on_the_wire(&read, octets), "on the wire: {text:?}");
    assert!(rt; name(rt, written) == read, "read again: {text:?}");
    assert!(rt;
        Name::from_wire(octets) == Some((read, octets.len())),
        "from the wire: {text:?}"
    );
}

#[test]
fn texts_of_names(rt: HostRuntime) {
    let rows: [(&[u8], &[u8], &[u8]); 5] = [
        (b".", b".", b"\0"),
        (
            b"*.Example.com",
            b"\\052.example.com.",
            b"\x01*\x07example\x03com\0",
        ),
        // RFC 1035, 4.1.4
        (b"F.ISI.ARPA.", b"f.isi.arpa.", b"\x01f\x03isi\x04arpa\0"),
        // an escaped letter in upper case, a dot within a label, the highest octet
        (
            b"\\101.a\\056b.\\377",
            b"a.a\\056b.\\377.",
            b"\x01a\x03a.b\x01\xff\0",
        ),
        (
            b"_sip._tcp.x-1",
            b"_sip._tcp.x-1.",
            b"\x04_sip\x04_tcp\x03x-1\0",
        ),
    ];
    for (text, written, octets) in rows {
        compare(&rt, text, written, octets);
    }
}

#[test]
fn octets_without_a_name(rt: HostRuntime) {
    let rows: [(&[u8], &str); 5] = [
        (b"", "nothing"),
        (b"\x01a", "no end"),
        (b"\x02a\0", "a label that is cut off"),
        (b"\xc0\x0c", "a pointer"),
        (b"\x40a\0", "a length octet of 64"),
    ];
    for (octets, row) in rows {
        assert!(rt; Name::from_wire(octets).is_none(), "{row}");
    }
    assert!(rt;
        Name::from_wire(b"\x01A\0\x01") == Some((name(&rt, b"a"), 3)),
        "octets behind the name"
    );
}

/// Compares the parts of a name with those of the root.
fn compare_parts(rt: &impl Abort, www: &Name) {
    let example = name(rt, b"example.com");
    assert_eq!(rt; www.labels(), 3, "three labels");
    assert_eq!(rt; Name::root().labels(), 0, "the root has none");
    assert!(rt; www.parent() == Some(example), "parent");
    assert!(rt; Name::root().parent().is_none(), "the root has no parent");
    assert!(rt;
        example.wildcard() == Some(name(rt, b"*.example.com")),
        "wildcard"
    );
}

#[test]
fn parts_of_names(rt: HostRuntime) {
    let www = name(&rt, b"www.example.com");
    compare_parts(&rt, &www);
    let rows: [(&[u8], bool, &str); 7] = [
        (b"www.example.com", true, "itself"),
        (b"example.com", true, "its parent"),
        (b".", true, "the root"),
        (b"ample.com", false, "a label's end"),
        (b"www.example", false, "its first labels"),
        (b"a.www.example.com", false, "a name below it"),
        (b"example.org", false, "another"),
    ];
    for (other, ends, row) in rows {
        assert_eq!(rt; www.ends_with(&name(&rt, other)), ends, "{row}");
    }
}

#[test]
fn a_name_of_255_octets(rt: HostRuntime) {
    // 63, 63, 63 and 61 octets; behind them places for one label more
    let mut text = [b'a'; 254];
    text[63] = b'.';
    text[127] = b'.';
    text[191] = b'.';
    let longest = name(&rt, &text[..253]);
    assert!(rt; longest.wildcard().is_none(), "no room for the wildcard");
    assert_eq!(rt;
        Name::from_text(&text).err(),
        Some(NameFault::NameTooLong(253)),
        "256 octets"
    );
    let without = longest.parent().unwrap_or(Name::root());
    assert!(rt; without.wildcard().is_some(), "room behind the first label");
}

#[test]
fn zone_order(rt: HostRuntime) {
    // RFC 4034, 6.1
    let rows: [&[u8]; 10] = [
        b".",
        b"example",
        b"a.example",
        b"yljkjljk.a.example",
        b"Z.a.example",
        b"zABC.a.EXAMPLE",
        b"z.example",
        b"\\001.z.example",
        b"*.z.example",
        b"\\310.z.example",
    ];
    for (i, text) in rows.iter().enumerate() {
        for (j, other) in rows.iter().enumerate() {
            let order = name(&rt, text).cmp(&name(&rt, other));
            assert_eq!(rt; order, i.cmp(&j), "rows {i} and {j}");
        }
    }
}
