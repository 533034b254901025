//! Why a scenario can't be played to its end.

use octets::OutOfMemory;
use scenario_words::Fault;

/// Why a scenario can't be played to its end.
#[derive(Clone, Copy, Debug, PartialEq, Eq)]
pub enum Stop {
    /// Memory was wanted and was not there.
    OutOfMemory,
    /// Two new files didn't become a store.
    NoStore,
    /// The line of this number, from 1, isn't understood.
    Line(u64, Fault),
    /// More comes than objects in memory take.
    TooMuch,
}

impl From<OutOfMemory> for Stop {
    fn from(_: OutOfMemory) -> Self {
        Stop::OutOfMemory
    }
}
