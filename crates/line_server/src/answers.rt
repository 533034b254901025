//! What comes of a line.

/// What came of a line.
#[derive(Clone, Copy, Debug, PartialEq, Eq)]
pub enum Taken {
    /// Its reply was written whole.
    Replied,
    /// The output failed, or took nothing of the reply or of what was left of it.
    WriteFault,
    /// A disk failed, and no part of the reply was written.
    DiskFault,
    /// The network failed, and no part of the reply was written.
    LinkFault,
}
