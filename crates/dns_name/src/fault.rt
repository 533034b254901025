//! What is wrong with the text of a name.

use thiserror::Error;

/// The first fault of a name's text from left to right, with the byte at which it stands.
///
/// Where a character would make both a label and the name too long, the label's fault is told.
#[derive(Clone, Copy, Debug, PartialEq, Eq, Error)]
pub enum NameFault {
    /// A backslash without three octal digits of value at most 255 behind it.
    #[error("bad escape at byte {0}")]
    BadEscape(usize),
    /// The character that would be a label's 64th octet.
    #[error("label too long at byte {0}")]
    LabelTooLong(usize),
    /// The character that would make the name longer than 255 octets.
    #[error("name too long at byte {0}")]
    NameTooLong(usize),
    /// A dot at the start or behind a dot, or an empty text.
    #[error("empty label at byte {0}")]
    EmptyLabel(usize),
    /// A byte that is not printable ASCII.
    #[error("bad byte at byte {0}")]
    BadByte(usize),
}
