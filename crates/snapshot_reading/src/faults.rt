//! Why octets are not read as a part of a snapshot.

/// Why a part of a snapshot was not read.
#[derive(Clone, Copy, Debug, PartialEq, Eq)]
pub enum SnapshotFault {
    /// The octets are outside the grammar, or some are missing.
    Bad,
    OutOfMemory,
}
