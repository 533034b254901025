//! Rows of fields and numbers.

use std::process::Abort;
use value_text::{Field, next_field, number};

/// A text, its first two fields, and what it shows.
type Row = (
    &'static str,
    Option<(usize, usize)>,
    Option<(usize, usize)>,
    &'static str,
);

/// Where a field stands.
fn place(field: Option<Field>) -> Option<(usize, usize)> {
    field.map(|field| (field.start, field.end))
}

/// Compares the first two fields of these texts.
fn compare(rt: &impl Abort, rows: &[Row]) {
    for (text, first, second, row) in rows {
        let bytes = text.as_bytes();
        let found = next_field(bytes, 0);
        assert_eq!(rt; place(found), *first, "{row}");
        if let Some(field) = found {
            assert_eq!(rt; place(next_field(bytes, field.end)), *second, "{row}");
        }
    }
}

/// Fields between blanks.
fn fields_between_blanks(rt: &impl Abort) {
    let rows: [Row; 5] = [
        (
            "10 mail.example.com",
            Some((0, 2)),
            Some((3, 19)),
            "one space",
        ),
        (
            "  10 \t mail\t",
            Some((2, 4)),
            Some((7, 11)),
            "several blanks",
        ),
        (
            "a\u{b}b",
            Some((0, 3)),
            None,
            "a vertical tab does not separate",
        ),
        ("\t \t", None, None, "nothing but blanks"),
        ("", None, None, "nothing"),
    ];
    compare(rt, &rows);
}

/// Fields with quotes.
fn fields_with_quotes(rt: &impl Abort) {
    let rows: [Row; 5] = [
        (
            "\"a\"\"b\"",
            Some((0, 3)),
            Some((3, 6)),
            "two strings without a blank",
        ),
        (
            "\"a\"b",
            Some((0, 3)),
            Some((3, 4)),
            "a field behind a closing quote",
        ),
        ("\"a b\" c", Some((0, 5)), Some((6, 7)), "a space in quotes"),
        ("\"a b", Some((0, 4)), None, "an unclosed quote"),
        (
            "a\"b\" c",
            Some((0, 4)),
            Some((5, 6)),
            "quotes inside a field",
        ),
    ];
    compare(rt, &rows);
}

/// Fields with a backslash.
fn fields_with_escapes(rt: &impl Abort) {
    let rows: [Row; 5] = [
        ("\"\\\"\" c", Some((0, 4)), Some((5, 6)), "an escaped quote"),
        (
            "\"\\\\\" c",
            Some((0, 4)),
            Some((5, 6)),
            "an escaped backslash",
        ),
        ("\"\\042\"c", Some((0, 6)), Some((6, 7)), "an octal quote"),
        (
            "\"\\1\" c",
            Some((0, 4)),
            Some((5, 6)),
            "a bad escape before the quote",
        ),
        ("\"\\", Some((0, 2)), None, "a backslash at the end"),
    ];
    compare(rt, &rows);
}

#[test]
fn first_two_fields(rt: HostRuntime) {
    fields_between_blanks(&rt);
    fields_with_quotes(&rt);
    fields_with_escapes(&rt);
}

/// A field, the most that it may be, its number, and what it shows.
type Number = (&'static str, u32, Option<u32>, &'static str);

/// Compares the numbers of these fields.
fn compare_numbers(rt: &impl Abort, rows: &[Number]) {
    for (field, most, value, row) in rows {
        assert_eq!(rt; number(field.as_bytes(), *most), *value, "{row}");
    }
}

#[test]
fn numbers(rt: HostRuntime) {
    let rows: [Number; 8] = [
        ("0", 0, Some(0), "zero"),
        ("255", 255, Some(255), "the most"),
        ("256", 255, None, "one above the most"),
        ("65535", 65535, Some(65535), "the most of two octets"),
        (
            "4294967295",
            4294967295,
            Some(4294967295),
            "the most of four octets",
        ),
        ("4294967296", 4294967295, None, "one above four octets"),
        (
            "18446744073709551617",
            4294967295,
            None,
            "one above eight octets, and one",
        ),
        (
            "00000000000000000000000000000007",
            7,
            Some(7),
            "leading zeros",
        ),
    ];
    compare_numbers(&rt, &rows);
    let rows: [Number; 5] = [
        ("", 255, None, "no digit"),
        ("+1", 255, None, "a sign"),
        ("-1", 255, None, "a minus"),
        ("1a", 255, None, "a letter"),
        ("1 ", 255, None, "a space"),
    ];
    compare_numbers(&rt, &rows);
}
