//! The lines of a scenario: where each ends, and what it is once its parts are put together.
//!
//! A line goes on in the lines below it that begin with a space. Of these, `400 times PART` stands
//! for so many parts with commas between. In each part `%i` is its number from 0, `%h` and `%l` are
//! the high and the low octet of that number, and `%n` is the number of the line, where one is sent
//! many times. `%t` is a tab and `%r` a carriage return.

ghost use Rattle.std.specs.Prelude.{◌≡◌, ◌≤◌, ◌++◌, OnOk, decimal, length};
ghost use Rattle.scenario_words.specs.LineLength.{ends_line, line_length};
ghost use Rattle.scenario_words.specs.Parting.{before, behind};

use itoa::Buffer;
use octets::{OutOfMemory, append, behind, front};
use prefix_text::{place_of, read_number};
use std::alloc::Global;

/// What stands before the first separator of this kind, and what stands behind it.
pub fn parted(text: &[u8], separator: u8) -> (&[u8], &[u8])
    ensures before { result.0.now ≡ before separator text.now }
    ensures behind { result.1.now ≡ behind separator text.now }
{
    match place_of(separator, text) {
        Some(at) => (front(text, at), behind(text, at + 1)),
        None => (text, &[]),
    }
}

/// How many octets the first line has, with those in which it goes on.
pub fn whole_len(text: &[u8]) -> usize
    ensures value { result ≡ line_length text.now }
    ensures within { result ≤ length text.now }
{
    for at in 0..text.len() {
        if ends_line(behind(text, at)) {
            return at + 1;
        }
    }
    text.len()
}

/// Whether a line ends with the first octet: a line feed, behind which no space stands.
fn ends_line(text: &[u8]) -> bool
    ensures { result ≡ ends_line text.now }
{
    match text {
        [b'\n', b' ', ..] => false,
        [b'\n', ..] => true,
        _ => false,
    }
}

/// How many line feeds a text has.
pub fn line_feeds(text: &[u8]) -> u64 {
    let mut count: u64 = 0;
    for octet in text {
        if *octet == b'\n' {
            count = count.saturating_add(1);
        }
    }
    count
}

/// The line of a number as one text, with its parts put together.
pub fn joined(alloc: Global, line: &[u8], number: u32) -> Result<Vec<u8>, OutOfMemory> {
    let mut whole = Vec::new(alloc);
    let mut rest = line;
    for _ in 0..line.len() {
        if rest.is_empty() {
            break;
        }
        let (part, behind) = parted(rest, b'\n');
        put_part(part.trim_ascii(), number, &mut whole)?;
        rest = behind;
    }
    Ok(whole)
}

/// Appends a part, or as many as it says.
fn put_part(part: &[u8], number: u32, into: &mut Vec<u8>) -> Result<(), OutOfMemory> {
    let (count, behind) = parted(part, b' ');
    match (read_number(count, 65_535), behind.strip_prefix(b"times ")) {
        (Some(count), Some(each)) => put_each(each, count, number, into),
        _ => put_marked(part, number, 0, into),
    }
}

/// Appends so many parts, with commas between.
fn put_each(part: &[u8], count: u32, number: u32, into: &mut Vec<u8>) -> Result<(), OutOfMemory> {
    for i in 0..count {
        if i > 0 {
            append(b",", into)?;
        }
        put_marked(part, number, i, into)?;
    }
    Ok(())
}

/// Appends a part with the numbers that its marks stand for.
fn put_marked(part: &[u8], number: u32, i: u32, into: &mut Vec<u8>) -> Result<(), OutOfMemory> {
    let mut rest = part;
    for _ in 0..part.len() {
        let (before, behind) = parted(rest, b'%');
        append(before, into)?;
        let [separator, after @ ..] = behind else {
            return Ok(());
        };
        put_mark(*separator, number, i, into)?;
        rest = after;
    }
    Ok(())
}

/// Appends what a separator stands for.
fn put_mark(separator: u8, number: u32, i: u32, into: &mut Vec<u8>) -> Result<(), OutOfMemory> {
    match separator {
        b'n' => put_number(u64::from(number), into),
        b'i' => put_number(u64::from(i), into),
        b'h' => put_number(u64::from(i / 256), into),
        b'l' => put_number(u64::from(i % 256), into),
        b't' => append(b"\t", into),
        b'r' => append(b"\r", into),
        _ => append(&[b'%', separator], into),
    }
}

/// Appends a number in decimal digits.
pub fn put_number(n: u64, into: &mut Vec<u8>) -> Result<(), OutOfMemory>
    ensures { OnOk result (into.new.items ≡ into.old.items ++ decimal n) }
{
    append(Buffer::new().format(n).as_bytes(), into)
}
