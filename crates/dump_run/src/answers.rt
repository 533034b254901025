//! Answers.

use zone_journal::Side;

/// What became of a dump.
#[derive(Clone, Copy, Debug, PartialEq, Eq)]
pub enum Dumped {
    /// All its lines were written.
    Written,
    /// The files are no store: the side that decides, and the byte at which it isn't one; A and 0 where
    /// neither file is open.
    NotAStore(Side, u64),
    /// A disk failed while the files were opened.
    OpeningFault,
    /// Memory was wanted for the opening.
    OutOfMemory,
    /// The sink failed, or took nothing.
    WriteFault,
}
