//! What is wrong with a line, and where.

ghost use Rattle.std.specs.Prelude.{◌≡◌, None};
ghost use Rattle.line_faults.specs.Faults.{told_in};
ghost use Rattle.line_faults.specs.Texts.{reason_text};
ghost use Rattle.line_faults.specs.declared.fault.LineFault.TheVariants.{BadLine, Unsupported};

use crate::member::Member;
use std::alloc::{AllocError, AllocFailed};

/// What is wrong with a line.
#[derive(Clone, Copy, Debug, PartialEq, Eq)]
pub enum LineReason {
    /// It is no JSON value.
    NotJson,
    /// It is no object of one member, whose name is that of a line.
    UnknownLine,
    /// An object has a member that is not known there.
    UnknownMember,
    /// A member is not there.
    Missing,
    /// A value is of another kind.
    WrongKind,
    /// A number, a text or a list is outside its range.
    OutOfRange,
    /// A text is no name.
    BadName,
    /// A text is no value of its type.
    BadValue,
    /// A text is no address.
    BadAddress,
    /// A text is no octets in hexadecimal digits.
    BadHex,
    /// Two members stand together that exclude one another.
    Both,
    /// A member stands without the one that it goes with.
    Alone,
}

impl LineReason {
    /// The reason as it stands in replies.
    pub fn text(self) -> &'static str
        ensures { result.now ≡ reason_text self }
    {
        match self {
            LineReason::NotJson => "NotJson",
            LineReason::UnknownLine => "UnknownLine",
            LineReason::UnknownMember => "UnknownMember",
            LineReason::Missing => "Missing",
            LineReason::WrongKind => "WrongKind",
            LineReason::OutOfRange => "OutOfRange",
            LineReason::BadName => "BadName",
            LineReason::BadValue => "BadValue",
            LineReason::BadAddress => "BadAddress",
            LineReason::BadHex => "BadHex",
            LineReason::Both => "Both",
            LineReason::Alone => "Alone",
        }
    }
}

/// Why a line was not read.
#[derive(Clone, Copy, Debug, PartialEq, Eq)]
pub enum LineFault {
    /// The line is wrong at this member, and inside this change.
    BadLine {
        reason: LineReason,
        member: Member,
        change: Option<u16>,
    },
    /// The line asks, by this member, for what is not offered.
    Unsupported {
        member: Member,
        change: Option<u16>,
    },
    /// Memory ran out.
    OutOfMemory,
}

impl LineFault {
    /// A fault at a member, outside of changes.
    pub fn bad(reason: LineReason, member: Member) -> LineFault
        ensures { result ≡ BadLine reason member None }
    {
        LineFault::BadLine {
            reason,
            member,
            change: None,
        }
    }

    /// That what a member asks for is not offered, outside of changes.
    pub fn unsupported(member: Member) -> LineFault
        ensures { result ≡ Unsupported member None }
    {
        LineFault::Unsupported {
            member,
            change: None,
        }
    }

    /// The same fault inside the change of this index, from 0.
    pub fn in_change(self, index: u16) -> LineFault
        ensures { result ≡ told_in index self }
    {
        match self {
            LineFault::BadLine { reason, member, .. } => LineFault::BadLine {
                reason,
                member,
                change: Some(index),
            },
            LineFault::Unsupported { member, .. } => LineFault::Unsupported {
                member,
                change: Some(index),
            },
            LineFault::OutOfMemory => LineFault::OutOfMemory,
        }
    }
}

impl From<AllocError> for LineFault {
    ghost from_gives = { λ _ fault. fault ≡ OutOfMemory };

    ghost use Rattle.std.specs.Prelude.{◌≡◌};
    ghost use Rattle.line_faults.specs.declared.fault.LineFault.TheVariants.{OutOfMemory};

    fn from(_: AllocError) -> Self {
        LineFault::OutOfMemory
    }
}

impl<T: Drop> From<AllocFailed<T>> for LineFault {
    ghost from_gives = { λ _ fault. fault ≡ OutOfMemory };

    ghost use Rattle.std.specs.Prelude.{◌≡◌};
    ghost use Rattle.line_faults.specs.declared.fault.LineFault.TheVariants.{OutOfMemory};

    fn from(_: AllocFailed<T>) -> Self {
        LineFault::OutOfMemory
    }
}
