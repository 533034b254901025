//! Rows of strings.

ghost use Rattle.std.specs.Prelude.{◌≤◌, length};

use std::process::Abort;
use value_text::{read_string, write_string};

/// A field, the text that is written for its string where it is one, and what it shows.
type Row = (&'static str, Option<&'static str>, &'static str);

/// Whether a string is written so.
fn is_written(string: &[u8], text: &str) -> bool
    requires { length string.now ≤ 255 }
{
    let mut into = [0; 1022];
    let end = write_string(string, &mut into, 0);
    &into[..end] == text.as_bytes()
}

/// Reads a field, and compares whether it is a string, and how it is written.
fn compare(rt: &impl Abort, field: &str, written: Option<&str>, row: &str) {
    let mut string = [0; 255];
    let read = read_string(field.as_bytes(), &mut string);
    assert_eq!(rt; read.is_some(), written.is_some(), "{row}");
    let (Some(len), Some(text)) = (read, written) else {
        return;
    };
    assert!(rt; is_written(&string[..len], text), "{row}");
}

/// Reads the fields of these rows.
fn compare_rows(rt: &impl Abort, rows: &[Row]) {
    for (field, written, row) in rows {
        compare(rt, field, *written, row);
    }
}

#[test]
fn strings(rt: HostRuntime) {
    let rows: [Row; 6] = [
        ("\"\"", Some("\"\""), "an empty string"),
        ("\"a b\"", Some("\"a b\""), "a space"),
        (
            "\"\\\"\\\\\"",
            Some("\"\\\"\\\\\""),
            "a quote and a backslash",
        ),
        (
            "\"\\101\\042\"",
            Some("\"A\\\"\""),
            "octal digits of what stands for itself",
        ),
        (
            "\"ex\\344mple.com\"",
            Some("\"ex\\344mple.com\""),
            "octal digits",
        ),
        (
            "\"\\377\\000\"",
            Some("\"\\377\\000\""),
            "the last and the first octet",
        ),
    ];
    compare_rows(&rt, &rows);
    let rows: [Row; 12] = [
        ("\"\\400\"", None, "256 in octal digits"),
        ("\"\\08\"", None, "a digit that is not octal"),
        ("\"\\1\"", None, "one octal digit"),
        ("\"\\a\"", None, "an escaped letter"),
        ("\"\t\"", None, "a tab"),
        ("\"\u{7f}\"", None, "a byte that is not printable"),
        ("\"a", None, "an unclosed quote"),
        ("\"a\\\"", None, "an escaped quote at the end"),
        ("\"", None, "one quote"),
        ("a", None, "no quotes"),
        ("\"a\"b", None, "more behind the closing quote"),
        ("", None, "nothing"),
    ];
    compare_rows(&rt, &rows);
}

#[test]
fn a_string_goes_behind_what_stands_there(rt: HostRuntime) {
    let mut into = *b"0 issue ..........";
    let end = write_string(b"a;", &mut into, 8);
    assert_eq!(rt; end, 12, "its end");
    assert_eq!(rt;
        &into,
        b"0 issue \"a;\"......",
        "CAA's value behind its tag"
    );
}
