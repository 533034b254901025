//! What is answered to a report and to a compaction.

/// What a report came to.
#[derive(Clone, Copy, Debug, PartialEq, Eq)]
pub enum Reported {
    /// It counts from now on.
    Taken,
    /// No health check of an endpoint has the number.
    NoSuchHealthCheck,
    /// There are fifty checkers, from 0 on.
    BadChecker,
}

/// What some pieces of a compaction came to.
#[derive(Clone, Copy, Debug, PartialEq, Eq)]
pub enum Compacted {
    /// So many octets are left to write.
    Left(u64),
    /// The new file decides, of this generation.
    Done(u64),
    /// There is no next generation.
    GenerationsEnded,
    /// Memory was wanted for a compaction that would begin: none has begun.
    OutOfMemory,
    /// A disk failed. The configuration and the reports are as they were; the compaction is dropped.
    DiskFault,
}
