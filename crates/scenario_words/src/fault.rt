//! Why a text of a scenario isn't understood.

use octets::OutOfMemory;

/// Why a text of a scenario isn't understood.
#[derive(Clone, Copy, Debug, PartialEq, Eq)]
pub enum Fault {
    /// Memory was wanted and was not there.
    OutOfMemory,
    /// The text has no form that texts of scenarios have.
    NoSuchForm,
    /// The reply to a packet is no message.
    NoMessage,
}

impl Fault {
    /// What is told of it.
    pub fn text(self) -> &'static [u8] {
        match self {
            Fault::OutOfMemory => b"out of memory",
            Fault::NoSuchForm => b"a line of no form",
            Fault::NoMessage => b"a reply that is no message",
        }
    }
}

impl From<OutOfMemory> for Fault {
    fn from(_: OutOfMemory) -> Self {
        Fault::OutOfMemory
    }
}
