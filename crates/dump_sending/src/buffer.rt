//! The buffer that the lines of a dump pass through.

/// The octets for which the buffer has room: the line of a collection.
pub const ROOM: usize = 1_048_576;
