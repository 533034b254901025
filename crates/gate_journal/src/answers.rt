//! What calls on a journal's file answer.

/// What a look at a file finds.
#[derive(Clone, Copy, Debug, PartialEq, Eq)]
pub enum Look {
    /// An open file of this generation.
    Open(u64),
    NotOpen,
    DiskFault,
}

/// What became of an append.
#[derive(Clone, Copy, Debug, PartialEq, Eq)]
pub enum Appended {
    /// The entry is acknowledged: every crash leaves it.
    Done,
    /// The file has this many bytes with its closed gate, and the entry does not fit behind them.
    Full(u64),
    /// The disk failed. The journal stands on it no more: open it again.
    DiskFault,
}

/// Why a journal cannot be read on.
#[derive(Clone, Copy, Debug, PartialEq, Eq)]
pub enum JournalFault {
    /// The file leaves the layout at this byte.
    Bad(u64),
    DiskFault,
    OutOfMemory,
}
