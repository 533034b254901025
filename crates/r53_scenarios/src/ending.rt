//! The end of a run in words.

use octets::{OutOfMemory, append};
use scenario_words::put_number;
use session_run::{Ended, Ran, Side};

/// Appends what a run came to.
pub fn put_end(ran: Ran, into: &mut Vec<u8>) -> Result<(), OutOfMemory> {
    match ran {
        Ran::BadTables(line) => {
            append(b"bad tables: line ", into)?;
            put_number(line, into)
        }
        Ran::NotAStore(side, place) => {
            append(side_text(side), into)?;
            put_number(place, into)
        }
        Ran::TablesFault => append(b"read fault", into),
        Ran::TablesTooLong => append(b"input too long", into),
        Ran::OpeningFault => append(b"disk fault", into),
        Ran::OutOfMemory => append(b"out of memory", into),
        Ran::Ended(ended) => append(ended_text(ended), into),
    }
}

/// The file that is no store.
fn side_text(side: Side) -> &'static [u8] {
    match side {
        Side::A => b"not a store: disk a, byte ",
        Side::B => b"not a store: disk b, byte ",
    }
}

/// How lines ended.
fn ended_text(ended: Ended) -> &'static [u8] {
    match ended {
        Ended::Done => b"done",
        Ended::ReadFault => b"read fault",
        Ended::InputTooLong => b"input too long",
        Ended::WriteFault => b"write fault",
        Ended::DiskFault => b"disk fault",
        Ended::LinkFault => b"link fault",
    }
}
