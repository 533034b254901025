//! What a packet is read as, where its query stands in a place of its own.

/// A `QueryRead` without its query.
#[derive(Clone, Copy)]
pub enum Verdict {
    /// Nothing is answered.
    Silent,
    /// The reply is a header alone, with this response code.
    Bad {
        id: u16,
        opcode: u8,
        rd: bool,
        rcode: u8,
    },
    /// A query of a newer version of EDNS than 0.
    BadVersion,
    /// A query.
    Query,
}
