//! How a drill ends.

use zone_journal::Side;

/// What became of a drill.
#[derive(Clone, Copy, Debug, PartialEq, Eq)]
pub enum Drilled {
    /// All its events ran, and its summary was written.
    Written,
    /// The file of this side is open; `a` is looked at first.
    AlreadyAStore(Side),
    /// A disk failed while the store was made.
    MakingFault,
    /// The files that were just made are no store, as disks tell that don't keep what is written.
    NotAStore(Side, u64),
    /// A disk failed while the store was opened.
    OpeningFault,
    /// Memory was wanted for what a drill takes at its beginning.
    OutOfMemory,
    /// A disk failed with a line in hand.
    DiskFault,
    /// The sink failed, or took nothing.
    WriteFault,
}
