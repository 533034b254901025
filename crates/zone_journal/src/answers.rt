//! What calls on a journal over two disks answer.

/// One of the two disks.
#[derive(Clone, Copy, Debug, PartialEq, Eq)]
pub enum Side {
    A,
    B,
}

/// What became of the making of a store.
#[derive(Clone, Copy, Debug, PartialEq, Eq)]
pub enum Init {
    Done,
    /// The file of this side is open; `a` is looked at first.
    AlreadyAStore(Side),
    DiskFault,
}

/// Why two files cannot be opened or read on as a store.
#[derive(Clone, Copy, Debug, PartialEq, Eq)]
pub enum OpenFault {
    /// The file of this side leaves the layout at this byte; A and 0 where no file is open.
    NotAStore(Side, u64),
    DiskFault,
    OutOfMemory,
}

/// What became of the beginning of a compaction.
#[derive(Clone, Copy, Debug, PartialEq, Eq)]
pub enum Begun {
    Begun,
    /// The active file has the last generation.
    GenerationsEnded,
}

/// What a piece of a compaction came to.
#[derive(Clone, Copy, Debug, PartialEq, Eq)]
pub enum Piece {
    /// So many bytes of the new file are unwritten.
    Running(u64),
    /// The new file is the active one, of this generation.
    Done(u64),
    /// A disk failed. The journal stands on the disks no more: open it again.
    DiskFault,
}

/// How far a compaction is.
#[derive(Clone, Copy, Debug, PartialEq, Eq)]
pub struct Progress {
    /// The length of the file that is built.
    pub length: u64,
    /// How many of its bytes are written. The file gate counts as unwritten until the end.
    pub written: u64,
}
