//! What control lines come to.

use config_model::Refusal;
use dns_name::Name;
use line_faults::{LineFault, Member};
use query_lines::Ports;

/// How many turns of a Serve line came to what.
#[derive(Clone, Copy, Debug, PartialEq, Eq)]
pub struct Turns {
    /// All of them.
    pub turns: u32,
    /// Packets that got a reply.
    pub answered: u32,
    /// Packets that got none.
    pub silent: u32,
    /// Reports that were taken.
    pub reports: u32,
    /// Reports of another form, or of no endpoint's check.
    pub unknown: u32,
    /// Without an arrival.
    pub quiet: u32,
}

/// What a control line came to, but for lists of sets and replies to packets.
#[derive(Clone, Copy)]
pub enum Outcome {
    /// The line of this name was done.
    Done(Member),
    /// A zone was made, with this number and name.
    ZoneMade { id: u32, name: Name },
    /// A health check was made, with this number.
    CheckMade(u32),
    /// A collection was made, with this number.
    CollectionMade(u32),
    /// The status of a check: of an endpoint how many checkers see a pass, of a calculated one how
    /// many children are healthy.
    Status { healthy: bool, passing: u16 },
    /// Sockets are at these ports.
    Bound(Ports),
    /// Turns were taken.
    Served(Turns),
    /// So many octets of a compaction are left.
    Left(u64),
    /// A compaction is done, and the file has this generation.
    Compacted(u64),
    /// The command was refused.
    Refused(Refusal),
    /// The line was not read.
    NotRead(LineFault),
    /// The line has more than 1,048,576 bytes.
    LineTooLong,
    /// The number of the checker is above 49.
    BadChecker,
    /// No sockets are bound.
    NotBound,
    /// Sockets are bound already.
    AlreadyBound,
    /// The generations of the journal have come to their end.
    GenerationsEnded,
}
