//! Inputs in pieces of 1, 7 and 100 bytes.

ghost use Rattle.std.specs.Prelude.{◌<◌};

use line_splitting::{LineReader, Next};
use r53_io::ListSource;
use std::alloc::Global;
use std::test::Fail;

/// The lines of an input that is read in pieces of this size, each in angle brackets; `!` is a line
/// that is too long.
fn lines_of(alloc: Global, input: &[u8], piece: usize) -> Result<Vec<u8>, Fail>
    requires { 0 < piece }
{
    let mut source = ListSource::new(alloc, input, piece, &[])?;
    let mut reader = LineReader::new(alloc)?;
    let mut told = Vec::new(alloc);
    for _ in 0..u64::MAX {
        match reader.next(&mut source) {
            Next::Line => {
                told.push(b'<')?;
                told.extend_from_slice(reader.line())?;
                told.push(b'>')?;
            }
            Next::TooLong => told.push(b'!')?,
            Next::Read => {}
            _ => break,
        }
    }
    Ok(told)
}

#[test]
fn splits_at_line_feeds(rt: HostRuntime) -> Result<(), Fail> {
    let input = b"{\"a\":1}\n\n \t\r\n{}\r\n  x";
    for piece in [1, 7, 100] {
        let told = lines_of(rt.alloc(), input, piece)?;
        assert_eq!(rt;
            told.as_slice(),
            b"<{\"a\":1}><{}\r><  x>".as_slice(),
            "pieces of {piece}"
        );
    }
    Ok(())
}

/// A line of this many bytes, and one behind it.
fn two_lines(alloc: Global, len: usize, byte: u8) -> Result<Vec<u8>, Fail> {
    let mut input = vec![in alloc; byte; len]?;
    input.extend_from_slice(b"\nx")?;
    Ok(input)
}

#[test]
fn longest_line(rt: HostRuntime) -> Result<(), Fail> {
    let input = two_lines(rt.alloc(), 1_048_576, b'a')?;
    let told = lines_of(rt.alloc(), &input, 65_536)?;
    assert_eq!(rt; told.len(), 1_048_576 + 5, "the line itself");
    let input = two_lines(rt.alloc(), 1_048_577, b'a')?;
    let told = lines_of(rt.alloc(), &input, 65_536)?;
    assert_eq!(rt; told.as_slice(), b"!<x>".as_slice(), "one byte more");
    Ok(())
}

#[test]
fn blank_lines_of_any_length(rt: HostRuntime) -> Result<(), Fail> {
    let input = two_lines(rt.alloc(), 3_000_000, b' ')?;
    let told = lines_of(rt.alloc(), &input, 65_536)?;
    assert_eq!(rt; told.as_slice(), b"<x>".as_slice(), "three million spaces");
    Ok(())
}
