//! What comes of a line, piece by piece.

ghost use Rattle.std.specs.Prelude.{◌≡◌, ◌≤◌, ◌<◌, ℕ, length, take, IfSome, None};
ghost use Rattle.std.specs.Bool.{OnTrue, OnFalse};
ghost use Rattle.line_splitting.specs.Lines.{is_blank, is_blank_byte};
ghost use Rattle.line_splitting.specs.Reading.{ending};
ghost use Rattle.line_splitting.specs.Judging.{end_place, as_events, dropped_with};

use memchr::memchr;
use octets::behind;

/// The most bytes of a line.
pub(crate) const MOST_BYTES: usize = 1_048_576;

/// What was dropped of the line that is read.
#[derive(Clone, Copy, Debug, PartialEq, Eq)]
pub enum Dropped {
    /// Nothing.
    Nothing,
    /// More bytes than a line may have, all of them blank.
    Blanks,
    /// More bytes than a line may have, not all of them blank.
    Text,
}

/// What comes of a line.
#[derive(Clone, Copy, Debug, PartialEq, Eq)]
pub(crate) enum Told {
    /// Nothing: it is blank.
    Nothing,
    /// The line itself.
    Line,
    /// That it is too long.
    TooLong,
}

/// What comes of a line that ends with this piece.
pub(crate) fn judge(before: Dropped, piece: &[u8]) -> Told
    ensures { ending before piece.now ≡ as_events result piece.now }
{
    match before {
        Dropped::Text => Told::TooLong,
        Dropped::Blanks => if is_blank(piece) {
            Told::Nothing
        } else {
            Told::TooLong
        },
        Dropped::Nothing => judge_whole(piece),
    }
}

/// What comes of a whole line.
fn judge_whole(line: &[u8]) -> Told
    ensures { ending Dropped.Nothing line.now ≡ as_events result line.now }
{
    if is_blank(line) {
        return Told::Nothing;
    }
    if line.len() > MOST_BYTES {
        return Told::TooLong;
    }
    Told::Line
}

/// Whether what was read of a line is dropped: it is begun to be, or is too long.
pub(crate) fn drops(before: Dropped, len: usize) -> bool
    ensures yes { OnTrue result (before ≡ Dropped.Nothing → 1048576 < len) }
    ensures no { OnFalse result (len ≤ 1048576) }
{
    match before {
        Dropped::Nothing => len > MOST_BYTES,
        _ => true,
    }
}

/// What is dropped of a line with this piece of it.
pub(crate) fn drop_piece(before: Dropped, piece: &[u8]) -> Dropped
    ensures { result ≡ dropped_with before piece.now }
{
    match before {
        Dropped::Text => Dropped::Text,
        _ => if is_blank(piece) {
            Dropped::Blanks
        } else {
            Dropped::Text
        },
    }
}

/// Whether a line is blank.
fn is_blank(line: &[u8]) -> bool
    ensures { result ≡ is_blank line.now }
{
    line.iter().all(|b| is_blank_byte(*b))
}

/// Whether a byte is a space, a tab or a carriage return.
fn is_blank_byte(b: u8) -> bool
    ensures { result ≡ is_blank_byte b }
{
    b == b' ' || b == b'\t' || b == b'\r'
}

/// The place of the first 0x0A, where none stands before a place.
pub(crate) fn end_place(bytes: &[u8], searched: usize) -> Option<usize>
    requires within { searched ≤ length bytes.now }
    requires none { end_place (take searched bytes.now) ≡ None }
    ensures place { result ≡ end_place bytes.now }
    ensures inside { IfSome result (λ k. k < length bytes.now) }
{
    match memchr(b'\n', behind(bytes, searched)) {
        Some(place) => Some(place + searched),
        None => None,
    }
}
