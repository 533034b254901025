//! Texts and octets of values: what each is read as, and the text that is written.

use rdata::{RData, RType, ValueFault, WireFault, write_text};
use std::alloc::Global;
use std::process::Abort;

/// Compares the text of a value, behind which nothing is written.
fn compare_text(rt: &impl Abort, value: &RData, text: &[u8]) {
    let mut into = [b'!'; 16384];
    let n = value.write_text(&mut into);
    assert_eq!(rt; &into[..n], text, "the text");
    assert!(rt;
        into[n..].iter().all(|b| *b == b'!'),
        "nothing else: {text:?}"
    );
}

/// Whether the value that was read is this one.
fn is_same(read: Option<RData>, value: &RData) -> bool {
    match read {
        Some(other) => other.is_same(value),
        None => false,
    }
}

/// Reads a text as a value of these octets, which is written as that text, and read again from
/// both.
fn is_read(rt: &impl Abort, alloc: Global, rtype: RType, text: &[u8], wire: &[u8], written: &[u8]) {
    let read = RData::from_text(alloc, rtype, text);
    assert!(rt; read.is_ok(), "read: {text:?}");
    let Ok(value) = read else { return };
    assert_eq!(rt; value.rtype(), rtype, "the type: {text:?}");
    assert_eq!(rt; value.wire(), wire, "the octets: {text:?}");
    compare_text(rt, &value, written);
    let again = RData::from_text(alloc, rtype, written).ok();
    assert!(rt; is_same(again, &value), "the written text: {text:?}");
    let back = RData::from_wire(alloc, rtype, wire).ok();
    assert!(rt; is_same(back, &value), "from the wire: {text:?}");
}

/// A type, a text, its octets, and the text that is written.
type Value = (RType, &'static [u8], &'static [u8], &'static [u8]);

/// Reads the texts of these rows.
fn are_read(rt: &impl Abort, alloc: Global, rows: &[Value]) {
    for (rtype, text, wire, written) in rows {
        is_read(rt, alloc, *rtype, text, wire, written);
    }
}

/// Addresses.
fn addresses(rt: &impl Abort, alloc: Global) {
    let rows: [Value; 5] = [
        (RType::A, b"192.0.2.1", b"\xc0\x00\x02\x01", b"192.0.2.1"),
        // blanks at both ends
        (
            RType::A,
            b"\t 255.0.0.10 \t",
            b"\xff\x00\x00\x0a",
            b"255.0.0.10",
        ),
        // RFC 3596, 2.1 with the address of RFC 5952, 2.2
        (
            RType::Aaaa,
            b"2001:DB8:0:0:1:0:0:1",
            b"\x20\x01\x0d\xb8\0\0\0\0\0\x01\0\0\0\0\0\x01",
            b"2001:db8::1:0:0:1",
        ),
        (
            RType::Aaaa,
            b"::ffff:192.0.2.1",
            b"\0\0\0\0\0\0\0\0\0\0\xff\xff\xc0\0\x02\x01",
            b"::ffff:c000:201",
        ),
        // one group of zeros is no `::` (RFC 5952, 4.2.2)
        (
            RType::Aaaa,
            b"2001:db8:0:1:1:1:1:1",
            b"\x20\x01\x0d\xb8\0\0\0\x01\0\x01\0\x01\0\x01\0\x01",
            b"2001:db8:0:1:1:1:1:1",
        ),
    ];
    are_read(rt, alloc, &rows);
}

/// Names, alone and behind numbers.
fn names(rt: &impl Abort, alloc: Global) {
    let rows: [Value; 7] = [
        // RFC 1035, 5.3
        (
            RType::Ns,
            b"VAXA.ISI.EDU",
            b"\x04vaxa\x03isi\x03edu\0",
            b"vaxa.isi.edu.",
        ),
        (
            RType::Cname,
            b"*.Example.com.",
            b"\x01*\x07example\x03com\0",
            b"\\052.example.com.",
        ),
        (RType::Ptr, b".", b"\0", b"."),
        // a new zone's start of authority
        (
            RType::Soa,
            b"ns1.r53.invalid. awsdns-hostmaster.amazon.com. 1 7200 900 1209600 86400",
            b"\x03ns1\x03r53\x07invalid\0\x11awsdns-hostmaster\x06amazon\x03com\0\
            \0\0\0\x01\0\0\x1c\x20\0\0\x03\x84\0\x12\x75\0\0\x01\x51\x80",
            b"ns1.r53.invalid. awsdns-hostmaster.amazon.com. 1 7200 900 1209600 86400",
        ),
        (
            RType::Mx,
            b"10 mail.example.com",
            b"\x00\x0a\x04mail\x07example\x03com\0",
            b"10 mail.example.com.",
        ),
        (RType::Mx, b"0065535 .", b"\xff\xff\0", b"65535 ."),
        // RFC 2782, the example
        (
            RType::Srv,
            b"0 1 9 old-slow-box.example.com.",
            b"\0\0\0\x01\0\x09\x0cold-slow-box\x07example\x03com\0",
            b"0 1 9 old-slow-box.example.com.",
        ),
    ];
    are_read(rt, alloc, &rows);
}

/// Strings, alone and behind a tag.
fn strings(rt: &impl Abort, alloc: Global) {
    let rows: [Value; 6] = [
        (RType::Txt, b"\"a\"\"b\"", b"\x01a\x01b", b"\"a\" \"b\""),
        (RType::Txt, b"\"\"", b"\0", b"\"\""),
        (
            RType::Txt,
            b"\"\\\"\\\\ \\303\\251\" \"x\"",
            b"\x05\"\\ \xc3\xa9\x01x",
            b"\"\\\"\\\\ \\303\\251\" \"x\"",
        ),
        (
            RType::Spf,
            b"\"v=spf1 -all\"",
            b"\x0bv=spf1 -all",
            b"\"v=spf1 -all\"",
        ),
        // RFC 8659, 4.2 and 4.4
        (
            RType::Caa,
            b"0 issue \"ca1.example.net; account=230123\"",
            b"\0\x05issueca1.example.net; account=230123",
            b"0 issue \"ca1.example.net; account=230123\"",
        ),
        (
            RType::Caa,
            b"128 iodef \"\"",
            b"\x80\x05iodef",
            b"128 iodef \"\"",
        ),
    ];
    are_read(rt, alloc, &rows);
}

#[test]
fn values(rt: HostRuntime) {
    addresses(&rt, rt.alloc());
    names(&rt, rt.alloc());
    strings(&rt, rt.alloc());
}

/// A text, and the fault for which it is no value of a type.
type Fault = (&'static [u8], ValueFault);

/// Tries to read texts without a value.
fn have_no_value(rt: &impl Abort, alloc: Global, rtype: RType, rows: &[Fault]) {
    for (text, fault) in rows {
        let read = RData::from_text(alloc, rtype, text);
        assert_eq!(rt; read.err(), Some(*fault), "{text:?}");
    }
}

/// Texts that are no addresses.
fn addresses_without_a_value(rt: &impl Abort, alloc: Global) {
    let rows: [Fault; 4] = [
        (b"256.0.0.1", ValueFault::BadField(0)),
        (b"192.0.2.01", ValueFault::BadField(0)),
        (b"192.0.2.1 x", ValueFault::SurplusField(10)),
        (b"192.0.2.1 x y", ValueFault::SurplusField(10)),
    ];
    have_no_value(rt, alloc, RType::A, &rows);
    let rows: [Fault; 2] = [
        (b"1:::2", ValueFault::BadField(0)),
        (b"1:2:3:4:5:6:7", ValueFault::BadField(0)),
    ];
    have_no_value(rt, alloc, RType::Aaaa, &rows);
}

/// Texts without names and numbers.
fn names_without_a_value(rt: &impl Abort, alloc: Global) {
    let rows: [Fault; 5] = [
        (b"10", ValueFault::MissingField(2)),
        (b" 10 ", ValueFault::MissingField(4)),
        (b"", ValueFault::MissingField(0)),
        (b"65536 a", ValueFault::BadField(0)),
        (b"1 a..b c", ValueFault::BadField(2)),
    ];
    have_no_value(rt, alloc, RType::Mx, &rows);
    let rows: [Fault; 2] = [
        (b"a b 1 2 3 4 4294967296", ValueFault::BadField(12)),
        (b"a b 1 2 3 4", ValueFault::MissingField(11)),
    ];
    have_no_value(rt, alloc, RType::Soa, &rows);
    let rows: [Fault; 1] = [(b"0 -1 9 a", ValueFault::BadField(2))];
    have_no_value(rt, alloc, RType::Srv, &rows);
}

/// Texts without strings.
fn strings_without_a_value(rt: &impl Abort, alloc: Global) {
    let rows: [Fault; 4] = [
        (b"a", ValueFault::BadField(0)),
        (b" ", ValueFault::MissingField(1)),
        (b"\"a\" \"b", ValueFault::BadField(4)),
        (b"\"\\400\"", ValueFault::BadField(0)),
    ];
    have_no_value(rt, alloc, RType::Txt, &rows);
    let rows: [Fault; 5] = [
        (b"0 is-sue \"\"", ValueFault::BadField(2)),
        (b"0 sixteen0letters0 \"\"", ValueFault::BadField(2)),
        (b"0 issue ca", ValueFault::BadField(8)),
        (b"0 issue \"\" \"\"", ValueFault::SurplusField(11)),
        (b"0 issue", ValueFault::MissingField(7)),
    ];
    have_no_value(rt, alloc, RType::Caa, &rows);
}

/// A text of 4,001 times this byte.
fn is_too_long(rt: &impl Abort, alloc: Global, rtype: RType, byte: u8) {
    let read = RData::from_text(alloc, rtype, &[byte; 4001]);
    assert_eq!(rt; read.err(), Some(ValueFault::TooLong), "{byte}");
}

#[test]
fn texts_without_a_value(rt: HostRuntime) {
    addresses_without_a_value(&rt, rt.alloc());
    names_without_a_value(&rt, rt.alloc());
    strings_without_a_value(&rt, rt.alloc());
    is_too_long(&rt, rt.alloc(), RType::A, b' ');
    is_too_long(&rt, rt.alloc(), RType::Txt, b'"');
}

#[test]
fn octets_without_a_value(rt: HostRuntime) {
    let rows: [(RType, &[u8], &str); 11] = [
        (RType::A, b"\xc0\x00\x02", "three octets"),
        (RType::A, b"\xc0\x00\x02\x01\x00", "five octets"),
        (RType::Ns, b"\x01A\0", "a capital letter"),
        (RType::Ns, b"\x01a", "no end"),
        (RType::Ns, b"\xc0\x0c", "a pointer"),
        (
            RType::Mx,
            b"\x04mail\0\x00\x0a",
            "the preference behind the exchange",
        ),
        (RType::Txt, b"", "no string"),
        (RType::Txt, b"\x02a", "a string that is cut off"),
        (RType::Caa, b"\0\0", "a tag without letters"),
        (RType::Caa, b"\0\x01-", "a tag with a hyphen"),
        (RType::Soa, b"\0\0", "no numbers"),
    ];
    for (rtype, wire, row) in rows {
        let read = RData::from_wire(rt.alloc(), rtype, wire);
        assert_eq!(rt; read.err(), Some(WireFault::Bad), "{row}");
    }
}

/// 1,333 empty strings and a blank: 4,000 bytes of text.
fn read_empty_strings(rt: &impl Abort, alloc: Global) {
    let mut text = [b'"'; 4000];
    for i in 0..1334 {
        if 3 * i + 2 < 4000 {
            text[3 * i + 2] = b' ';
        }
    }
    text[3999] = b' ';
    let read = RData::from_text(alloc, RType::Txt, &text);
    assert!(rt;
        read.is_ok_and(|value| value.wire() == [0; 1333].as_slice()),
        "empty strings"
    );
}

/// 15 strings of 255 octets and one of 159, each octet as `\ooo`: 4,000 octets.
fn longest(rt: &impl Abort, alloc: Global) -> RData {
    let mut wire = [0x80; 4000];
    for i in 0..16 {
        wire[256 * i] = 255;
    }
    wire[3840] = 159;
    RData::from_wire(alloc, RType::Txt, &wire).expect(rt, "4,000 octets")
}

/// 15 strings of 255 letters and one of 143, side by side: 4,000 bytes of text.
fn read_full_text(rt: &impl Abort, alloc: Global) -> RData {
    let mut text = [b'a'; 4000];
    for i in 0..15 {
        text[257 * i] = b'"';
        text[257 * i + 256] = b'"';
    }
    text[3855] = b'"';
    text[3999] = b'"';
    RData::from_text(alloc, RType::Txt, &text).expect(rt, "4,000 bytes of text")
}

/// Copies a value, and compares the copy with it.
fn is_copied(rt: &impl Abort, alloc: Global, value: &RData) {
    let copy = value.copy(alloc).ok();
    assert!(rt;
        is_same(copy, value),
        "a copy of {} octets",
        value.wire().len()
    );
}

/// The octets of a value behind another octet.
fn behind_another(rt: &impl Abort, alloc: Global, value: &RData) -> Vec<u8> {
    let mut octets = Vec::new(alloc);
    assert!(rt; octets.push(7).is_ok(), "memory");
    assert!(rt; value.write_wire(&mut octets).is_ok(), "memory");
    octets
}

/// The longest value and an empty string, 17 whole strings, are 4,001 octets and no value.
fn have_an_octet_too_many(rt: &impl Abort, alloc: Global, longest: &RData) {
    let mut octets = Vec::new(alloc);
    assert!(rt; longest.write_wire(&mut octets).is_ok(), "memory");
    assert!(rt; octets.push(0).is_ok(), "memory");
    assert_eq!(rt; octets.len(), 4001, "an empty string behind");
    let read = RData::from_wire(alloc, RType::Txt, &octets);
    assert_eq!(rt; read.err(), Some(WireFault::Bad), "4,001 octets");
}

#[test]
fn the_longest_values(rt: HostRuntime) {
    read_empty_strings(&rt, rt.alloc());
    let longest = longest(&rt, rt.alloc());
    let mut into = [0; 16384];
    assert_eq!(rt; longest.write_text(&mut into), 15_983, "the longest text");
    let octets = (longest.rtype(), longest.wire());
    assert_eq!(rt;
        write_text(octets.0, octets.1, &mut into),
        15_983,
        "from its octets"
    );
    is_copied(&rt, rt.alloc(), &longest);
    let octets = behind_another(&rt, rt.alloc(), &longest);
    assert_eq!(rt; octets.len(), 4001, "behind what stands there");
    have_an_octet_too_many(&rt, rt.alloc(), &longest);
}

#[test]
fn the_longest_text(rt: HostRuntime) {
    let value = read_full_text(&rt, rt.alloc());
    assert_eq!(rt; value.wire().len(), 3984, "the octets");
    assert_eq!(rt; value.wire()[3840], 143, "the last string");
    is_copied(&rt, rt.alloc(), &value);
    let octets = behind_another(&rt, rt.alloc(), &value);
    assert_eq!(rt; octets.len(), 3985, "behind what stands there");
}

/// Compares the type of a text with that of a number.
fn compare_type(rt: &impl Abort, text: &[u8], number: u16) {
    let rtype = RType::from_text(text);
    assert!(rt; rtype.is_some(), "{text:?}");
    assert_eq!(rt; rtype, RType::from_number(number), "{text:?}");
    assert_eq!(rt; rtype.map(|t| t.text()), Some(text), "{text:?}");
}

#[test]
fn types(rt: HostRuntime) {
    let rows: [(&[u8], u16); 11] = [
        (b"A", 1),
        (b"NS", 2),
        (b"CNAME", 5),
        (b"SOA", 6),
        (b"PTR", 12),
        (b"MX", 15),
        (b"TXT", 16),
        (b"AAAA", 28),
        (b"SRV", 33),
        (b"SPF", 99),
        (b"CAA", 257),
    ];
    for (text, number) in rows {
        compare_type(&rt, text, number);
    }
    let rows: [&[u8]; 4] = [b"a", b"", b"DS", b"HTTPS"];
    for text in rows {
        assert_eq!(rt; RType::from_text(text), None, "{text:?}");
    }
    for number in [0, 3, 41, 43, 65, 255, 256, 65535] {
        assert_eq!(rt; RType::from_number(number), None, "{number}");
    }
}
