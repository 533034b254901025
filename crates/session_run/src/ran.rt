//! How a session ends.

use session_loop::Ended;
use zone_journal::Side;

/// How a session ended. Where it ended before its lines nothing was written to its output, sent or
/// written to its files, and of its input nothing was read.
#[derive(Clone, Copy, Debug, PartialEq, Eq)]
pub enum Ran {
    /// The line of this number of the tables, from 1, is bad, and none before it is.
    BadTables(u64),
    /// The tables failed.
    TablesFault,
    /// 2^40 octets of tables were read without their end.
    TablesTooLong,
    /// The files are no store: the side that decides, and the place at which it isn't one; A and 0
    /// where neither file is open.
    NotAStore(Side, u64),
    /// A disk failed while the store was opened.
    OpeningFault,
    /// Memory was wanted for what a session takes at its beginning.
    OutOfMemory,
    /// The lines ended.
    Ended(Ended),
}
