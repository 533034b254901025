//! Why octets are not read as a set.

use thiserror::Error;

/// Why octets were not read.
#[derive(Clone, Copy, Debug, PartialEq, Eq, Error)]
pub enum ReadFault {
    /// They leave the grammar at this byte: the first one of the first field outside it, or the
    /// number of the bytes where bytes are missing.
    #[error("bad octets at byte {0}")]
    Bad(usize),
    #[error("out of memory")]
    OutOfMemory,
}
