//! What may be wrong with the text or the octets of a value.

use std::alloc::{AllocError, AllocFailed};
use thiserror::Error;

/// The first fault of a value's text from left to right, with the byte at which it stands.
///
/// A text that is too long is told as such before its fields are looked at.
#[derive(Clone, Copy, Debug, PartialEq, Eq, Error)]
pub enum ValueFault {
    /// A field that is not of the type's form begins here.
    #[error("bad field at byte {0}")]
    BadField(usize),
    /// The text ends here, and a field more is wanted.
    #[error("missing field at byte {0}")]
    MissingField(usize),
    /// A field begins here that the type does not have.
    #[error("surplus field at byte {0}")]
    SurplusField(usize),
    /// The text has more than 4,000 bytes.
    #[error("text too long")]
    TooLong,
    #[error("out of memory")]
    OutOfMemory,
}

/// Why octets were not read as a value.
#[derive(Clone, Copy, Debug, PartialEq, Eq, Error)]
pub enum WireFault {
    /// They are not in the type's layout.
    #[error("bad value")]
    Bad,
    #[error("out of memory")]
    OutOfMemory,
}

impl From<AllocError> for ValueFault {
    ghost from_gives = { λ _ fault. fault ≡ OutOfMemory };

    ghost use Rattle.std.specs.Prelude.{◌≡◌};
    ghost use Rattle.rdata.specs.declared.faults.ValueFault.TheVariants.{OutOfMemory};

    fn from(_: AllocError) -> Self {
        ValueFault::OutOfMemory
    }
}

impl<T: Drop> From<AllocFailed<T>> for ValueFault {
    ghost from_gives = { λ _ fault. fault ≡ OutOfMemory };

    ghost use Rattle.std.specs.Prelude.{◌≡◌};
    ghost use Rattle.rdata.specs.declared.faults.ValueFault.TheVariants.{OutOfMemory};

    fn from(_: AllocFailed<T>) -> Self {
        ValueFault::OutOfMemory
    }
}

impl From<AllocError> for WireFault {
    ghost from_gives = { λ _ fault. fault ≡ OutOfMemory };

    ghost use Rattle.std.specs.Prelude.{◌≡◌};
    ghost use Rattle.rdata.specs.declared.faults.WireFault.TheVariants.{OutOfMemory};

    fn from(_: AllocError) -> Self {
        WireFault::OutOfMemory
    }
}
