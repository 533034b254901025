//! How lines end.

/// How the lines of an input ended.
#[derive(Clone, Copy, Debug, PartialEq, Eq)]
pub enum Ended {
    /// All of them were taken.
    Done,
    /// The input failed. The lines that end within what was read of it were taken.
    ReadFault,
    /// 2^40 octets of input were read without its end. The lines that end within them were taken.
    InputTooLong,
    /// The output failed, or took nothing of a reply or of what was left of it.
    WriteFault,
    /// A disk failed, and no part of the reply was written.
    DiskFault,
    /// The network failed, and no part of the reply was written.
    LinkFault,
}
